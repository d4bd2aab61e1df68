//! What a run needs of a method but for its code.

use linked_code::BuiltInMethod;

/// What a call of a method runs.
#[derive(Clone, Copy)]
pub enum MethodKind {
    Abstract,
    BuiltIn(BuiltInMethod),
    /// The method has code.
    Code,
}

/// What a run needs of a method but for its code.
#[derive(Clone, Copy)]
pub struct MethodRow {
    /// The number of the class that declares it.
    pub class: u16,
    /// How many words a call takes: its arguments, and a receiver where it is not static.
    pub operands: u8,
    pub is_static: bool,
    pub is_synchronized: bool,
    pub kind: MethodKind,
}
