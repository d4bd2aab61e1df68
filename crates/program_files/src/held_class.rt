//! Which classes files hold, and whether these declare a main (JVMS 5.2).

ghost use Rattle.std.specs.Prelude.{◌≡◌, [], IfErr, IfOk, false, map, option_map, string_bytes};
ghost use Rattle.std.specs.Option.{option_map_or};
ghost use Rattle.model.specs.AccessFlags.{is_static_method};
ghost use Rattle.model.specs.Classes.{declared_in, is_method};
ghost use Rattle.model.specs.Names.{main_of, spells};
ghost use Rattle.classfile.specs.View.{method_of as tree_of, file_of};
ghost use Rattle.program_files.specs.Folders.{FolderMayFail};
ghost use Rattle.program_files.specs.Given.{IsUnable};
ghost use Rattle.program_files.specs.Handed.{AreClasses, IsClassOf, IsHeld, declares_main};
ghost use Rattle.program_files.specs.declared.files_fault.FilesFault.TheVariants.{Device};

use crate::files_fault::FilesFault;
use crate::folder::Folder;
use classfile::{Cause, ClassFile, Method, class_name, decode};
use std::alloc::{AllocError, Global};

/// The class that a file holds.
#[derive(Drop)]
pub struct HeldClass {
    /// Its name, with slashes.
    pub name: Vec<u8>,
    /// Whether it declares a main that is static.
    pub has_main: bool,
}

/// The classes that the files at these paths hold, in their order: none where one is no class file.
pub fn held_classes<F: Folder>(
    alloc: Global,
    folder: &F,
    paths: &[String],
) -> Result<Vec<Option<HeldClass>>, FilesFault>
    ensures classes { IfOk result (λ classes.
        AreClasses (F.held folder.now) (map string_bytes paths.now) classes.items) }
    ensures unable { IfErr result IsUnable }
    ensures failed { IfErr result (λ fault. fault ≡ Device → FolderMayFail F.may_fail) }
{
    let mut classes = Vec::new(alloc);
    for path in paths {
        let bytes = folder.read(alloc, path.as_str())?;
        classes.push(held_class(alloc, bytes.as_slice())?)?;
    }
    Ok(classes)
}

/// The class that these bytes are the file of, if they are one.
fn held_class(alloc: Global, bytes: &[u8]) -> Result<Option<HeldClass>, AllocError>
    ensures { IfOk result (IsHeld bytes.now) }
{
    match decode(alloc, bytes) {
        Ok(file) => Ok(Some(class_of(alloc, &file)?)),
        Err(malformed) => match malformed.cause {
            Cause::OutOfMemory => Err(AllocError),
            _ => Ok(None),
        },
    }
}

/// What is known of the class of a file.
fn class_of(alloc: Global, file: &ClassFile) -> Result<HeldClass, AllocError>
    ensures { IfOk result (IsClassOf (file_of file.now)) }
{
    Ok(HeldClass {
        name: Vec::from_slice(alloc, class_name(file))?,
        has_main: declares_main(file),
    })
}

/// Whether a class declares a main that is static.
fn declares_main(file: &ClassFile) -> bool
    ensures { result ≡ declares_main (file_of file.now) }
{
    for method in &file.methods {
        if is_main(file, method) {
            return method.is_static();
        }
    }
    false
}

/// Whether a method is called main, with an array of Strings as its only parameter and without a result.
fn is_main(file: &ClassFile, method: &Method) -> bool
    ensures { result ≡ is_method file.now.pool (main_of []).name (main_of []).descriptor (tree_of method.now) }
{
    is_spelled(file.utf8(method.name), b"main")
        && is_spelled(file.utf8(method.descriptor), b"([Ljava/lang/String;)V")
}

/// Whether a text is there, and is this one.
fn is_spelled(text: Option<&[u8]>, name: &[u8]) -> bool
    ensures { result ≡ spells (option_map (λ t. t.now) text.entry) name.now }
{
    match text {
        Some(text) => text == name,
        None => false,
    }
}
