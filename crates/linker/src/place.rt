//! How a refusal names a place in a class file.

ghost use Rattle.std.specs.Prelude.{◌≡◌, ◌++◌, IfOk, option_map, vec_items};
ghost use Rattle.model.specs.Conditions.{text_at};
ghost use Rattle.classfile.specs.View.{file_of};
ghost use Rattle.linker.specs.Linking.{method_text};

use classfile::{ClassFile, Method};
use std::alloc::{AllocError, Global};

/// The name of a method with its descriptor behind it.
fn text_of(alloc: Global, file: &ClassFile, method: &Method) -> Result<Vec<u8>, AllocError>
    ensures { IfOk result (λ t.
        t.items ≡ text_at file.now.pool method.now.name ++ text_at file.now.pool method.now.descriptor) }
{
    let mut text = Vec::from_slice(alloc, file.pool.text(method.name))?;
    text.extend_from_slice(file.pool.text(method.descriptor))?;
    Ok(text)
}

/// The name of the method of an index with its descriptor behind it, where the class has such a method.
pub(crate) fn method_text(
    alloc: Global,
    file: &ClassFile,
    method: usize,
) -> Result<Option<Vec<u8>>, AllocError>
    ensures { IfOk result (λ t. option_map vec_items t ≡ method_text (file_of file.now) method) }
{
    match file.methods.get(method) {
        Some(method) => Ok(Some(text_of(alloc, file, method)?)),
        None => Ok(None),
    }
}
