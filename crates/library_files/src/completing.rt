//! Class files that are completed from a library.

ghost use Rattle.std.specs.Prelude.{◌≡◌, ◌++◌, IfOk, map, option_map, vec_items};
ghost use Rattle.library_files.specs.Adding.{library_file};
ghost use Rattle.library_files.specs.Completing.{AreAddedTo, AreClassesOf, AreOwnOf, IsClassOf, IsCompleted, bytes_of_added};

use crate::adding::added_classes;
use crate::library_class::LibraryClass;
use crate::offers::own_classes;
use classfile::{Cause, ClassFile, decode};
use std::alloc::{AllocError, Global};

/// The class that bytes are; `None` where they are no class file.
pub(crate) fn class_of(alloc: Global, bytes: &[u8]) -> Result<Option<ClassFile>, AllocError>
    ensures { IfOk result (IsClassOf bytes.now) }
{
    match decode(alloc, bytes) {
        Ok(class) => Ok(Some(class)),
        Err(malformed) => match malformed.cause {
            Cause::OutOfMemory => Err(AllocError),
            _ => Ok(None),
        },
    }
}

/// The classes of files, in their order; `None` where one is no class file.
fn classes_of(alloc: Global, files: &[Vec<u8>]) -> Result<Option<Vec<ClassFile>>, AllocError>
    ensures { IfOk result (λ classes. AreClassesOf (map vec_items files.now) (option_map vec_items classes)) }
{
    let mut classes = Vec::new(alloc);
    for bytes in files {
        let Some(class) = class_of(alloc, bytes)? else {
            return Ok(None);
        };
        classes.push(class)?;
    }
    Ok(Some(classes))
}

/// The classes of a library that are added to files: those that linking would else find missing, and those that they
/// need in turn, in the order of the library. None is added where a file is no class file.
pub fn added_to<'a>(
    alloc: Global,
    files: &[Vec<u8>],
    library: &[LibraryClass<'a>],
) -> Result<Vec<LibraryClass<'a>>, AllocError>
    ensures { IfOk result (λ added. AreAddedTo (map library_file library.now) (map vec_items files.now)
        (map library_file added.items)) }
{
    match classes_of(alloc, files)? {
        Some(classes) => added_classes(alloc, &classes, library),
        None => Ok(Vec::new(alloc)),
    }
}

/// The files, and behind them the bytes of the classes. `AllocError` for want of memory.
pub fn with_bytes(
    alloc: Global,
    files: Vec<Vec<u8>>,
    added: &[LibraryClass<'_>],
) -> Result<Vec<Vec<u8>>, AllocError>
    ensures { IfOk result (λ whole. map vec_items whole.items
        ≡ map vec_items files.items ++ bytes_of_added (map library_file added.now)) }
{
    let mut whole = files;
    for class in added {
        whole.push(Vec::from_slice(alloc, class.bytes)?)?;
    }
    Ok(whole)
}

/// Files, and behind them those of the classes of a library that are added to them. `AllocError` for want of memory.
pub fn completed(
    alloc: Global,
    files: Vec<Vec<u8>>,
    library: &[LibraryClass<'_>],
) -> Result<Vec<Vec<u8>>, AllocError>
    ensures { IfOk result (λ whole. IsCompleted (map library_file library.now) (map vec_items files.items)
        (map vec_items whole.items)) }
{
    let added = added_to(alloc, &files, library)?;
    with_bytes(alloc, files, &added)
}

/// The classes of a library in whose place files have their own: those of the same names. There is none where a file is
/// no class file. `AllocError` for want of memory.
pub fn own_of<'a>(
    alloc: Global,
    files: &[Vec<u8>],
    library: &[LibraryClass<'a>],
) -> Result<Vec<LibraryClass<'a>>, AllocError>
    ensures { IfOk result (λ own. AreOwnOf (map library_file library.now) (map vec_items files.now)
        (map library_file own.items)) }
{
    match classes_of(alloc, files)? {
        Some(classes) => own_classes(alloc, &classes, library),
        None => Ok(Vec::new(alloc)),
    }
}
