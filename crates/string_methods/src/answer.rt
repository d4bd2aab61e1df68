//! What a method answers.

/// What a method of `java.lang.String` answers of texts that are there; a null is a NullPointerException.
#[derive(Drop)]
pub enum StringAnswer {
    /// A StringIndexOutOfBoundsException.
    Outside,
    /// An int, by its bits; a char and a boolean are ints.
    Int(u32),
    /// An operand, by its place, counted from the top of the stack.
    Same(usize),
    /// A new String, by its units.
    Composed(Vec<u32>),
}
