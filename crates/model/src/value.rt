//! Values of local variables, operands, fields and elements.

/// What a local variable, a place of an operand stack, a field or an element holds (JVMS 2.6.1, 2.6.2), with
/// its kind. A `long` or a `double` never stands here.
#[derive(Clone, Copy, Default)]
pub enum Value {
    /// A local variable to which nothing was written.
    #[default]
    Unset,
    /// An `int` by its 32 bits.
    Int(u32),
    Null,
    /// An object, by the number of objects that were made before it.
    Reference(u32),
}
