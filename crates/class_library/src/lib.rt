//! The class files of the library, as `tools/build-library` makes them of library/classes. Not to be edited.
#![tactic(auto)]

mod java_io;
mod java_lang;
mod java_util;
mod java_util_concurrent;
mod java_util_concurrent_atomic;
mod java_util_concurrent_locks;

use library_files::LibraryClass;
use std::alloc::{AllocError, Global};

/// The classes of the library, by the bytes of their names. `AllocError` for want of memory.
pub fn library_classes(alloc: Global) -> Result<Vec<LibraryClass<'static>>, AllocError> {
    let mut classes = Vec::new(alloc);
    classes.extend_from_slice(&java_io::classes())?;
    classes.extend_from_slice(&java_lang::classes())?;
    classes.extend_from_slice(&java_util::classes())?;
    classes.extend_from_slice(&java_util_concurrent::classes())?;
    classes.extend_from_slice(&java_util_concurrent_atomic::classes())?;
    classes.extend_from_slice(&java_util_concurrent_locks::classes())?;
    Ok(classes)
}
