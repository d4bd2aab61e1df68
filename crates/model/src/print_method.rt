//! What prints.

/// A method of `java.io.PrintStream` without code.
#[derive(Clone, Copy, PartialEq, Eq)]
pub enum PrintMethod {
    /// `println()`
    Println,
    /// `println(char)`
    PrintlnChar,
    /// `println(int)`
    PrintlnInt,
    /// `println(String)`
    PrintlnString,
    /// `print(char)`
    PrintChar,
    /// `print(int)`
    PrintInt,
    /// `print(String)`
    PrintString,
}
