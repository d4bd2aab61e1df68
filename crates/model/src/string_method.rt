//! What texts answer.

/// A method of `java.lang.String` without code. All but `valueOf` have a String for their receiver.
#[derive(Clone, Copy, PartialEq, Eq)]
pub enum StringMethod {
    /// `length()`
    Length,
    /// `charAt(int)`
    CharAt,
    /// `equals(Object)`
    Equals,
    /// `hashCode()`
    HashCode,
    /// `compareTo(String)`
    CompareTo,
    /// `concat(String)`
    Concat,
    /// `substring(int, int)`
    Substring,
    /// `indexOf(int, int)`
    IndexOf,
    /// `regionMatches(int, String, int, int)`
    RegionMatches,
    /// `valueOf(int)`
    ValueOfInt,
    /// `valueOf(char)`
    ValueOfChar,
}
