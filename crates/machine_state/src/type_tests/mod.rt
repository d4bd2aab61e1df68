//! Tests of subtypes by numbers: whether a class is below another one, and whether objects are of a type. Each reads
//! a constant number of words of the tables of a linked program.
//!
//! # Proved
//!
//! - Whatever files a program is linked from: `is_class_below` is `is_subclass_or_implements` of the classes of two
//!   numbers, where something is tested against the other one; `is_kind_below` and `is_object_below` are the test of
//!   checkcast, instanceof and aastore for objects of a kind, and for the object of a reference.
//!
//! # Not proved
//!
//! - Not proved: how many reads a test takes.
//!
//! # Wrong bodies
//!
//! - Planted by `rt plant`: 3 functions, 3 untried; 0 bodies judged, 14 not judged, 0 not run; none proves.

mod classes;
mod kinds;
mod objects;

pub use classes::is_class_below;
pub use kinds::is_kind_below;
pub use objects::is_object_below;
