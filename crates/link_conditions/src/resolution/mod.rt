//! Whether all that a class file names is found among the classes of a program as it is wanted (JVMS 5.4.3, 6.5), and
//! the field or the method that an instruction's operand names.
//!
//! # Proved
//!
//! - `first_unresolved`, memory aside: it answers a place exactly where a condition of Unresolved stands in the class
//!   file (`found`), and one stands at that place (`place`): in the class, a field, a method's descriptor, an
//!   instruction or an exception entry. The caller keeps that no two classes have one name.
//! - `found_field` and `found_method`: what the definition says that the operand of an instruction names, and where it
//!   stands. They take no memory.
//! - `UnresolvedNames`: whether a condition of Unresolved stands in the class, a field, a method's descriptor, an
//!   instruction or an exception entry (`class_stands`, `field_stands`, `declaration_stands`, `unresolved_instruction`,
//!   `exception_stands`).
//! - Each descriptor of a constant pool is looked at once.
//!
//! # Not proved
//!
//! - Shown by cases alone: that the place is the first, of superclass, superinterfaces and fields, and then by methods
//!   of descriptor, instructions and exception entries. They show each condition.
//!
//! # Wrong bodies
//!
//! - `resolution-elements_of_arrays_are_not_asked`: where the class of a method is one of arrays, that of their elements
//!   need not be found; refused by `class_or_descriptor_lacks`.
//! - `resolution-number_of_a_thread_is_found`: a hidden field of Thread may be named; refused by `is_hidden_field`.

mod class;
mod code;
mod descriptor;
mod found;
mod instruction;
mod member;
mod names;
mod operand;
mod place;
mod table;
mod walk;

pub use found::{found_field, found_method};
pub use names::UnresolvedNames;
pub use place::UnresolvedPlace;
pub use walk::first_unresolved;
