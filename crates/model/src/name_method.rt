//! How a thread is named.

/// A constructor of `java.lang.Thread`, or a method of it without code that reads or sets its name.
#[derive(Clone, Copy, PartialEq, Eq)]
pub enum NameMethod {
    /// `<init>()`
    Construct,
    /// `<init>(Runnable)`
    ConstructWithTarget,
    /// `<init>(String)`
    ConstructWithName,
    /// `<init>(Runnable, String)`
    ConstructWithTargetAndName,
    /// `getName()`
    GetName,
    /// `setName(String)`
    SetName,
}
