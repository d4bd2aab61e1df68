//! What kind of value a word is.

use classfile::ClassFile;
use model::{ArrayKind, FieldAccess, Instr, Invocation, Kind, Returned};

/// What a word stands for.
#[derive(Clone, Copy)]
pub(crate) enum Sort {
    Int,
    Boolean,
    Reference,
}

/// The sort of a field or of a result, by its descriptor.
fn described(descriptor: &[u8]) -> Sort {
    match descriptor.first() {
        Some(b'L') | Some(b'[') => Sort::Reference,
        Some(b'Z') => Sort::Boolean,
        _ => Sort::Int,
    }
}

/// The sort of the result of a method, by the method's descriptor.
fn returned(descriptor: &[u8]) -> Sort {
    let mut sort = Sort::Int;
    for (place, byte) in descriptor.iter().enumerate() {
        if *byte == b')' {
            sort = described(descriptor.get(place.saturating_add(1)..).unwrap_or(b""));
        }
    }
    sort
}

/// The sort of the field of an index of the constant pool.
fn of_field(file: &ClassFile, index: u16) -> Sort {
    match file.field_reference(index) {
        Some(field) => described(field.descriptor),
        None => Sort::Int,
    }
}

/// The sort of the result of the method of an index.
fn of_method(file: &ClassFile, index: u16) -> Sort {
    match file.method_reference(index) {
        Some(method) => returned(method.descriptor),
        None => Sort::Int,
    }
}

/// Whether an index names an Integer.
fn of_constant(file: &ClassFile, index: u16) -> Sort {
    match file.pool.integer(index) {
        Some(_) => Sort::Int,
        None => Sort::Reference,
    }
}

/// The sort of the word which an instruction reads, writes, pushes or returns.
pub(crate) fn sort_of(file: &ClassFile, instr: Instr) -> Sort {
    match instr {
        Instr::Null
        | Instr::Load {
            kind: Kind::Reference,
            ..
        }
        | Instr::Store {
            kind: Kind::Reference,
            ..
        }
        | Instr::LoadElement(ArrayKind::Reference)
        | Instr::StoreElement(ArrayKind::Reference)
        | Instr::Return(Returned::Reference) => Sort::Reference,
        Instr::LoadConstant { index } => of_constant(file, index),
        Instr::Field { index, .. } => of_field(file, index),
        Instr::Invoke { index, .. } => of_method(file, index),
        _ => Sort::Int,
    }
}
