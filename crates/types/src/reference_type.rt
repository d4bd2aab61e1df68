//! Reference types as data.

use model::Primitive;

/// What is no array of references: a class, by its place in the set of classes, or an array of a primitive type.
#[derive(Clone, Copy, PartialEq, Eq)]
pub enum Element {
    Class(usize),
    PrimitiveArray(Primitive),
}

/// A reference type (JVMS 2.4): an array of so many dimensions, or the element where there are none. So `int[][]` is an
/// array of one dimension, of the element `int[]`.
#[derive(Clone, Copy, PartialEq, Eq)]
pub struct ReferenceType {
    pub dimensions: u8,
    pub element: Element,
}
