//! The classes of a library.

/// A class file of a library: the name of its class, and its bytes.
#[derive(Clone, Copy)]
pub struct LibraryClass<'a> {
    pub name: &'a [u8],
    pub bytes: &'a [u8],
}
