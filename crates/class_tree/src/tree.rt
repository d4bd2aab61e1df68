//! A class file as a tree (JVMS 4.1).

use constant_pool::Pool;
use model::ExceptionEntry;

/// An attribute that is not interpreted (JVMS 4.7): the index of its name, and its bytes.
#[derive(Drop)]
pub struct Attribute {
    pub name: u16,
    pub bytes: Vec<u8>,
}

/// What a Code attribute holds (JVMS 4.7.3).
#[derive(Drop)]
pub struct Code {
    pub max_stack: u16,
    pub max_locals: u16,
    pub code: Vec<u8>,
    pub exceptions: Vec<ExceptionEntry>,
    pub attributes: Vec<Attribute>,
}

/// An attribute of a field. `name` is the index of the attribute's name. A ConstantValue of a field that is not
/// static is skipped (JVMS 4.7.2).
#[derive(Drop)]
pub enum FieldAttribute {
    ConstantValue { name: u16, index: u16 },
    Skipped(Attribute),
}

/// An attribute of a method. `name` is the index of the attribute's name. A Code stands behind a pointer, so that an
/// attribute that is skipped takes no room for one.
#[derive(Drop)]
pub enum MethodAttribute {
    Code { name: u16, code: Box<Code> },
    Skipped(Attribute),
}

/// A field (JVMS 4.5): its access flags, and the indices of its name and of its descriptor.
#[derive(Drop)]
pub struct Field {
    pub flags: u16,
    pub name: u16,
    pub descriptor: u16,
    pub attributes: Vec<FieldAttribute>,
}

/// A method (JVMS 4.6): its access flags, and the indices of its name and of its descriptor.
#[derive(Drop)]
pub struct Method {
    pub flags: u16,
    pub name: u16,
    pub descriptor: u16,
    pub attributes: Vec<MethodAttribute>,
}

/// A class file of version 49.0.
#[derive(Drop)]
pub struct ClassFile {
    pub pool: Pool,
    pub flags: u16,
    pub this_class: u16,
    pub super_class: u16,
    pub interfaces: Vec<u16>,
    pub fields: Vec<Field>,
    pub methods: Vec<Method>,
    pub attributes: Vec<Attribute>,
}
