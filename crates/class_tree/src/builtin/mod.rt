//! The built-in classes, as class files.
//!
//! # Proved
//!
//! - `built_in_classes`: what is answered are class files whose trees are the definition's `built_in_classes`, in their
//!   order, memory aside.
//!
//! # Not proved
//!
//! - Shown by each case that links alone: that they are answered where memory is there.

mod classes;
mod form;
mod tables;

pub use classes::built_in_classes;
