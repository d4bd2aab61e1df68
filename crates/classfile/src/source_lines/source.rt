//! The source file of a class.

use crate::source_lines::bytes::u2_at;
use crate::{Attribute, ClassFile};

/// The name of an attribute.
pub(crate) fn is_named(file: &ClassFile, attribute: &Attribute, name: &[u8]) -> bool {
    match file.utf8(attribute.name) {
        Some(text) => text == name,
        None => false,
    }
}

/// The name of the source file from which a class was compiled (JVMS 4.7.10), if the class file tells it.
pub fn source_file(file: &ClassFile) -> Option<&[u8]> {
    for attribute in &file.attributes {
        if is_named(file, attribute, b"SourceFile") {
            return file.utf8(u2_at(&attribute.bytes, 0)?);
        }
    }
    None
}
