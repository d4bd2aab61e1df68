//! Where a field is.

/// Where the field is that a Fieldref names (JVMS 5.4.3.2). Classes count from 0, the built-in ones first, then those
/// of the files in their order; slots count from 0.
#[derive(Clone, Copy, PartialEq, Eq)]
pub enum FieldLink {
    /// System.out, which has no slot.
    SystemOut,
    /// System.err, which has no slot.
    SystemErr,
    /// A static field: the class that declares it, and its slot among the static fields of all files.
    Static { class: usize, slot: usize },
    /// An instance field: the class that declares it, and its slot in each object of this class and of its subclasses.
    Instance { class: usize, slot: usize },
}
