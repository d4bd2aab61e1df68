//! The verifier's types as data.

use crate::reference_type::ReferenceType;

/// The type of a local variable or of a place of the operand stack (JVMS 4.10.1.2).
#[derive(Clone, Copy, PartialEq, Eq)]
pub enum VerificationType {
    /// Of a local variable alone.
    Unusable,
    Int,
    Null,
    Object(ReferenceType),
    /// What the `new` at an offset made, of the class that it names, before its constructor was called.
    Uninitialised { offset: u16, class: usize },
    /// The receiver of a constructor of a class, until another constructor was called on it.
    UninitialisedThis { class: usize },
}
