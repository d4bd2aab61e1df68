//! What the indices of the constant pool of a class are for its instructions and its exception entries, in linked code:
//! a table for each kind of operand but calls. An index that is nothing of the kind has no row.
//!
//! # Proved
//!
//! - For each class of linked files the tables of constants, classes of `new`, fields, types, component types and catch
//!   types are right, row by row (`EachRow`), in the terms of `linked_instructions` (`IsField` and the like), of
//!   `linked_types`, and its own (`IsCatch`). They are complete as `linkable_code` asks: each index for which something
//!   is found that an instruction or an exception entry may name has its row. So no number of linked files is too large
//!   for a row. The only error is a want of memory.
//!
//! # Not proved
//!
//! - Not proved: what a table is for a place that is no class.

mod catch_table;
mod class_table;
mod constant_table;
mod field_table;
mod indices;
mod type_table;

pub use catch_table::{catch_operand, catches_of};
pub use class_table::new_classes_of;
pub use constant_table::constants_of;
pub use field_table::fields_of;
pub use type_table::{components_of, types_of};
