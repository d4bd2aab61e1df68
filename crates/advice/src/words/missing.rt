//! Classes that declarations name: superclasses, interfaces, catch types and the classes of descriptors.

use classfile::{ClassFile, Method};
use hierarchy::ClassSet;

/// The name of the class behind the brackets of an array's descriptor, or the name itself.
fn innermost(name: &[u8]) -> &[u8] {
    if name.first().copied() != Some(b'[') {
        return name;
    }
    first_in_descriptor(name).unwrap_or(b"")
}

/// The first name between an `L` and a semicolon.
fn first_in_descriptor(text: &[u8]) -> Option<&[u8]> {
    let begin = text.iter().position(|byte| *byte == b'L')?;
    let behind = text.get(begin.saturating_add(1)..)?;
    let end = behind.iter().position(|byte| *byte == b';')?;
    behind.get(..end)
}

/// The first class of a descriptor that is not in the set.
pub fn lacking_in<'a>(set: &ClassSet, descriptor: &'a [u8]) -> Option<&'a [u8]> {
    let mut rest = descriptor;
    for _ in 0..descriptor.len() {
        let name = first_in_descriptor(rest)?;
        if set.class_of(name).is_none() {
            return Some(name);
        }
        let end = rest.iter().position(|byte| *byte == b';')?;
        rest = rest.get(end.saturating_add(1)..)?;
    }
    None
}

/// The class of a name, or of the elements of an array of this descriptor, where it is not in the set.
pub fn lacking_name<'a>(set: &ClassSet, name: &'a [u8]) -> Option<&'a [u8]> {
    let class = innermost(name);
    if class.is_empty() || set.class_of(class).is_some() {
        return None;
    }
    Some(class)
}

/// The class of an index, where it is not in the set.
fn lacking_class<'a>(set: &ClassSet, file: &'a ClassFile, index: u16) -> Option<&'a [u8]> {
    lacking_name(set, file.class_name(index)?)
}

/// The first class that is not in the set of those that the class names above itself and in its fields, and what names
/// it.
pub fn lacking_above<'a>(set: &ClassSet, file: &'a ClassFile) -> Option<(&'a [u8], &'static str)> {
    if let Some(name) = lacking_class(set, file, file.super_class) {
        return Some((name, "as its superclass"));
    }
    for index in &file.interfaces {
        if let Some(name) = lacking_class(set, file, *index) {
            return Some((name, "as its superinterface"));
        }
    }
    for field in &file.fields {
        if let Some(name) = lacking_in(set, file.pool.text(field.descriptor)) {
            return Some((name, "in the descriptor of a field"));
        }
    }
    None
}

/// The first class that is not in the set of those that a method names in its descriptor and as catch types, and what
/// names it.
pub fn lacking_in_method<'a>(
    set: &ClassSet,
    file: &'a ClassFile,
    method: &'a Method,
) -> Option<(&'a [u8], &'static str)> {
    if let Some(name) = lacking_in(set, file.pool.text(method.descriptor)) {
        return Some((name, "in its descriptor"));
    }
    for entry in &method.code()?.exceptions {
        if let Some(name) = lacking_class(set, file, entry.catch_type) {
            return Some((name, "as a catch type"));
        }
    }
    None
}
