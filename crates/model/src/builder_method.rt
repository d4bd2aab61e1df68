//! What a StringBuilder does.

/// A method of `java.lang.StringBuilder` without code.
#[derive(Clone, Copy, PartialEq, Eq)]
pub enum BuilderMethod {
    /// `<init>()`
    ConstructEmpty,
    /// `<init>(String)`
    ConstructOfString,
    /// `append(String)`
    AppendString,
    /// `append(int)`
    AppendInt,
    /// `append(char)`
    AppendChar,
    /// `append(StringBuilder)`
    AppendBuilder,
    /// `toString()`
    ToString,
}
