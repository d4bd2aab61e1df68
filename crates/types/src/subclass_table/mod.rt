//! The table that says which classes of a program are below which, made once, so that a test of a type reads two
//! numbers.
//!
//! # Proved
//!
//! - `subclasses`: what it makes says, for every class and every class that has a column, whether the one is the other,
//!   a subclass of it, or implements it (`AreSubclasses`); the tested classes have columns, and no others. Its only
//!   error is a want of memory.
//! - `object_is_first`: in linked files Object is the class of number 0, and no other class has its name
//!   (`IsObjectFirst`).
//! - `above_by_classes_above`: where what is directly above a class is settled within fewer steps than there are
//!   classes, what is above the class is itself, what is above its direct superinterfaces by superinterfaces alone, and
//!   what is above its superclass. By it the row of a class is made of the rows of the classes directly above it.
//!
//! # Not proved
//!
//! - Not proved: the time that it takes, and that the order finds each class after those above it. A class that comes
//!   too early gets its row by names, which is as right and slower.

mod bits;
mod by_names;
mod class_rows;
mod columns;
mod laws;
mod names;
mod order;
mod rows;
mod table;

pub use laws::{above_by_classes_above, object_is_first};
pub use table::subclasses;
