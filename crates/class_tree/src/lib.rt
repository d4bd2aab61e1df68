//! A class file as a tree (JVMS 4.1): its parts, its bytes, what its indices name, and the conditions on it.
//!
//! # Proved
//!
//! - `check_conditions`: what passes meets each of the conditions on indices, names, descriptors, attributes of members
//!   and duplicates (`met`); a fault of a cause is answered only where the condition of this cause is not met, so a
//!   tree that meets all of them passes, memory aside (`stands`).
//! - `encode`: it gives the bytes that the tree is spelled as (`spelled`), and so those that the tree was decoded from
//!   (`back`), memory aside.
//! - `ClassFile::code_offset`: it is the length of what stands in the file before what the method's Code holds
//!   (`front_of_code`), and what the Code holds stands there in the bytes that the tree was decoded from (`place`,
//!   `stands`).
//! - The getters of the constant pool are those of `constant_pool`. Of the others: `class_name`, `superclass_name` and
//!   `Method::code` are `name_of`, `super_name_of` and `code_in` of the definitions.
//!
//! # Not proved
//!
//! - Shown by cases alone: the offsets of faults, and which of several faults is answered.
#![tactic(auto)]

pub mod access_flags;
mod attribute;
pub mod builtin;
mod check;
mod descriptor;
mod duplicate;
mod index;
mod lookup;
mod names;
mod place;
mod spelled;
mod tree;
mod whole;

pub use constant_pool::reading::{Cause, Malformed};
pub use constant_pool::{Constant, NameAndDescriptor, Pool, Reference};
pub use lookup::{class_name, superclass_name};
pub use spelled::encode;
pub use tree::{Attribute, ClassFile, Code, Field, FieldAttribute, Method, MethodAttribute};
pub use whole::check_conditions;
