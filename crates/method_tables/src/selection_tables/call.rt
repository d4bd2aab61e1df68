//! Calls that select a method by the class of their receiver.

/// Which instruction a call is.
#[derive(Clone, Copy)]
pub enum CallKind {
    /// `invokevirtual`
    Virtual,
    /// `invokeinterface`
    Interface,
}

/// A call of a method that was found for what a constant pool names (JVMS 5.4.3.3, 5.4.3.4).
#[derive(Clone, Copy)]
pub struct NamedCall {
    pub kind: CallKind,
    /// The number of the class that is named.
    pub class: usize,
    /// The number of the method that was found.
    pub method: usize,
}

/// By what a call finds the method that it runs.
#[derive(Clone, Copy, PartialEq, Eq)]
pub enum CallTarget {
    /// The place in the row of the receiver's class, for `invokevirtual`.
    Place(u32),
    /// The selector in the row of the receiver's class, for `invokeinterface`.
    Selector(u32),
    /// The number of the method that all receivers have.
    Method(u32),
}
