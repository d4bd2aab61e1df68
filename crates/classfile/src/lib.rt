//! Class files (JVMS chapter 4) from bytes to trees.
//!
//! # Proved
//!
//! - `decode`:
//!   - what is answered is a tree that the bytes spell: they have its `Layout`, and each of the conditions on indices,
//!     names, descriptors, attributes of members and duplicates is met (`found`);
//!   - a tree that the bytes spell is answered, memory aside (`only`): so a file without a fault is never refused;
//!   - a refusal's cause stands in the bytes, memory aside (`refused`, the definition `StandsAt`):
//!     - `Magic` is answered at 0, and only where the first four bytes are there and others; `Version` at 4, and only
//!       where the magic is right and bytes 4 to 7 are there and others; `Trailing` only where what lies before its
//!       offset has a `Layout` and more follows;
//!     - `Truncated`, `Tag`, `Utf8` and an `Attribute` that doesn't fit are answered only where reading the fields from
//!       left to right ends so, at that offset (`StopsAt`: by a definition of this crate, in the order of the file);
//!     - one of `Index`, `Name`, `Descriptor`, `Duplicate`, and another `Attribute`, only where the bytes have a
//!       `Layout` whose tree fails that condition;
//!     - `Code` is never answered, and `OutOfMemory` at 0 alone.
//!
//! # Not proved
//!
//! - Shown by cases and tests alone: the offsets of conditions that a tree fails, and which of several such conditions
//!   is answered; that `StopsAt` reads as the rules want it, where the bytes have no layout.
//! - Only measured (docs/MEASURES.md): that the time is in proportion to the length of a file. Each text of the
//!   constant pool is looked at once; to find those that are the same, each is compared with up to some dozens of
//!   others.
//! - No test can make an allocation fail. The program `bench decode` was tried on the stored class file with the
//!   10th, 15th, 20th, 25th and 30th allocation failing (`rt try --fail-alloc N`), and answered `OutOfMemory` each
//!   time.
#![tactic(auto)]

mod file;
mod member;
mod part;
pub mod profile;
pub mod source_lines;

pub use class_tree::{
    Attribute, ClassFile, Code, Constant, Field, FieldAttribute, Method, MethodAttribute,
    NameAndDescriptor, Pool, Reference, access_flags, class_name, encode, superclass_name,
};
pub use constant_pool::reading::{Cause, Malformed};
pub use file::decode;
