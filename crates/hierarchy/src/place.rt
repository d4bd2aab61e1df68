//! Where a member stands.

/// A field or a method: the place of the class that declares it, and its place among that class's fields or methods.
#[derive(Clone, Copy, PartialEq, Eq)]
pub struct MemberPlace {
    pub class: usize,
    pub member: usize,
}
