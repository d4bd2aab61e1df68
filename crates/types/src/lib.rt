//! The verifier's types (JVMS 4.10.1.2): their order and their joins, and those of frame types (JVMS 4.10.1.4).
//!
//! A class is the place that it has in a set of classes, so that a type is a small value.
//!
//! # Proved
//!
//! `type_in` and `frame_in` say which type and which frame type of the definitions is meant. A type takes no memory of
//! its own.
//!
//! - `is_assignable`, `is_stack_below`, `is_local_below` and `is_frame_below`: they are the definitions of the same
//!   names, for all types and all places.
//! - `reference_join`, `stack_join`, `local_join` and `frame_join`: they are the definitions of the same names, and
//!   none where the definition has none; of `frame_join` memory aside. They ask that each superclass is in the set
//!   (`HasSuperclasses`). Files in which the condition `Unresolved` doesn't stand are so
//!   (`linked_files_have_superclasses`).
//! - The joins are least upper bounds, which is proved in `typing_search`. None but `frame_join` takes memory.
//! - Types that name one place are compared without a look at the set. Those that name two are compared, and two
//!   classes are joined, by the set's skips along superclasses. Where `common_superclass` has no answer, the
//!   definition's search is made.
//!
//! # Not proved
//!
//! - Shown by cases alone: that `frame_join` answers where memory is there.
#![tactic(auto)]

mod class;
pub mod described_types;
mod frame_type;
mod frames;
mod join;
pub mod method_code;
mod order;
mod reference_type;
pub mod subclass_table;
mod superclasses;
mod verification_type;

pub use class::is_same_class;
pub use frame_type::FrameType;
pub use frames::{frame_join, is_frame_below};
pub use join::{local_join, reference_join, stack_join};
pub use order::{is_assignable, is_local_below, is_stack_below};
pub use reference_type::{Element, ReferenceType};
pub use superclasses::linked_files_have_superclasses;
pub use verification_type::VerificationType;
