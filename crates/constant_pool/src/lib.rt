//! The constant pool of a class file (JVMS 4.4): its entries, what an index names, and the conditions on it.
//!
//! # Proved
//!
//! - `Pool::read`: the pool that the bytes spell from the reader's place on, with the place behind it, or the fault at
//!   which that reading stops, memory aside (`pool_at`).
//! - Of the getters (`constant`, `text`, `utf8`, `integer`, `class_name`, `string`, `name_and_type`, `field_reference`,
//!   `method_reference`, `interface_method_reference`, `names_utf8`, `names_class`): what the definitions say of the
//!   index. None of them takes memory.
//! - `Texts`, which looks at each text of a pool once: `Texts::new` gives the table of this pool, memory aside, and
//!   `kind` says of an index what its text is: which names, which descriptors, and how many slots (`kind_of`).
//! - `FirstIndices`: `first` is the first index with the same text (`value`), and of two indices it is one exactly
//!   where their texts are (`same`).
//! - `Pool::check_indices`, `Texts::check_names`, `Texts::check_descriptors`: each passes exactly where its condition
//!   is met of all entries, and else answers its own cause. `is_method_name` holds of the names that a method may have.
//! - `modified_utf8`: `decode` gives the UTF-16 code units that bytes spell in modified UTF-8 (`decoded`), memory
//!   aside, and `code_unit_at` one of them, with how many bytes it has.
//! - `Pool::encode` and `Pool::length`: the bytes that the pool is spelled as, and how many the entries have.
//!
//! # Not proved
//!
//! - Shown by cases alone: the offsets of faults of the checks (a check takes the offset of the pool for nothing else).
#![tactic(auto)]

mod condition;
mod constant;
mod descriptor;
pub mod descriptors;
mod first;
mod index;
mod kind;
mod lookup;
pub mod modified_utf8;
mod name;
mod pool;
mod read;
pub mod reading;
mod texts;

pub use crate::reading::{Cause, Malformed};
pub use constant::Constant;
pub use first::FirstIndices;
pub use kind::TextKind;
pub use lookup::{NameAndDescriptor, Reference};
pub use name::is_method_name;
pub use pool::Pool;
pub use texts::Texts;
