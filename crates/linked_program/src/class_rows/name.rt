//! What a class is called.

ghost use Rattle.std.specs.Prelude.{◌≡◌, IfOk};
ghost use Rattle.classfile.specs.View.{file_of};
ghost use Rattle.model.specs.Classes.{name_of};
ghost use Rattle.model.specs.ObjectMethods.{dotted, dotted_unit};

use classfile::{ClassFile, class_name};
use constant_pool::modified_utf8::decode;
use std::alloc::{AllocError, Global};

const SLASH: u16 = 47;

const DOT: u16 = 46;

fn dotted_unit(unit: u16) -> u16
    ensures { result ≡ dotted_unit unit }
{
    if unit == SLASH { DOT } else { unit }
}

/// The units of the name of a class, with dots for slashes (JLS 6.7).
pub(crate) fn dotted_name(alloc: Global, file: &ClassFile) -> Result<Vec<u16>, AllocError>
    ensures { IfOk result (λ name. name.items ≡ dotted (name_of (file_of file.now))) }
{
    let units = decode(alloc, class_name(file))?;
    let mut name = Vec::new(alloc);
    for unit in &units {
        name.push(dotted_unit(*unit))?;
    }
    Ok(name)
}
