//! What makes a text of its own, and what takes one apart.

/// A constructor of `java.lang.String`, or a method of it without code that asks for more than texts and ints.
#[derive(Clone, Copy, PartialEq, Eq)]
pub enum TextMethod {
    /// `<init>()`
    ConstructEmpty,
    /// `<init>(String)`
    ConstructOfString,
    /// `<init>(char[], int, int)`
    ConstructOfChars,
    /// `getChars(int, int, char[], int)`
    GetChars,
    /// `intern()`
    Intern,
}
