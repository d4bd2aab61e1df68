//! Where a class file breaks a rule.

/// A place in a class file. Methods, and the entries of an exception table, count from 0.
#[derive(Clone, Copy)]
pub enum RulePlace {
    /// What a class file says of the class itself: its flags, its superclass, its superinterfaces.
    Class,
    Method { method: usize },
    /// The catch type of an entry of a method's exception table.
    Exception { method: usize, entry: usize },
}
