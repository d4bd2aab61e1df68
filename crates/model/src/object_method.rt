//! What an object tells of itself.

/// A method without code that tells the number or the class of an object.
#[derive(Clone, Copy, PartialEq, Eq)]
pub enum ObjectMethod {
    /// `Object.hashCode()`
    HashCode,
    /// `System.identityHashCode(Object)`
    IdentityHashCode,
    /// `Object.getClass()`
    GetClass,
    /// `Class.getName()`
    ClassName,
    /// `String.described(Object, int)`
    Described,
}
