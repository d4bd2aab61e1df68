//! What is told where a program has no main.

use listings::printed_names::push_printed;
use program_files::{Folder, HeldClass, held_classes};
use std::alloc::{AllocError, Global};

/// Adds which classes of the files at these paths declare a main, and how one is named.
pub(crate) fn add_mains<F: Folder>(
    alloc: Global,
    folder: &F,
    paths: &[String],
    line: &mut Vec<u8>,
) -> Result<(), AllocError> {
    let Ok(classes) = held_classes(alloc, folder, paths) else {
        return Ok(());
    };
    let names = mains(alloc, &classes)?;
    if names.is_empty() {
        line.extend_from_slice(b"; no other class has one")?;
        return Ok(());
    }
    line.extend_from_slice(b"; '--main' may name a class that has one:")?;
    for name in names {
        line.push(b' ')?;
        push_printed(line, name)?;
    }
    Ok(())
}

/// The names of the classes that declare a main.
fn mains(alloc: Global, classes: &[Option<HeldClass>]) -> Result<Vec<&[u8]>, AllocError> {
    let mut names = Vec::new(alloc);
    for class in classes {
        match class {
            Some(class) if class.has_main => names.push(class.name.as_slice())?,
            _ => {}
        }
    }
    Ok(names)
}
