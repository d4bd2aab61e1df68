//! Methods of a class file by what a refusal says of them.

use classfile::{ClassFile, Code, Method};

/// Whether a text is the name of the method with its descriptor behind it.
fn is_called(file: &ClassFile, method: &Method, text: &[u8]) -> bool {
    match text.strip_prefix(file.pool.text(method.name)) {
        Some(descriptor) => descriptor == file.pool.text(method.descriptor),
        None => false,
    }
}

/// The method with this text.
pub(crate) fn method_called<'a>(file: &'a ClassFile, text: &[u8]) -> Option<&'a Method> {
    for method in &file.methods {
        if is_called(file, method, text) {
            return Some(method);
        }
    }
    None
}

/// The code of the method with this text.
pub(crate) fn code_called<'a>(file: &'a ClassFile, text: &[u8]) -> Option<&'a Code> {
    method_called(file, text)?.code()
}
