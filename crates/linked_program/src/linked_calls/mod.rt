//! The calls of linked code: for each class file and each index of its constant pool what the invoking instructions
//! that name it call (JVMS 6.5 invokevirtual, invokespecial, invokestatic, invokeinterface), and the methods that
//! classes select for these calls.
//!
//! # Proved
//!
//! - Proved (`linked_calls`), of linked classes and the links of their methods: the rows of calls by the indices of
//!   constant pools, and what each class selects. Each row is what its index calls: an `invokestatic`, `invokevirtual`
//!   or `invokeinterface` (`IsCall`) in whatever linked program has these selections, an `invokespecial` in the methods
//!   of its class (`IsSpecial`). The rows are complete as `linkable_code` wants it (`AllCalls`, `AllSpecials`). There
//!   are selections for each class, with rising selectors, and `run_place` is the place of Thread.run.
//! - Places and selectors that 32 bits don't hold are answered as a want of memory.
//!
//! # Not proved
//!
//! - Not proved: that an error comes only where memory runs out or a number doesn't fit; how long it takes.
//!
//! # Wrong bodies
//!
//! - `linked_calls-array_classes_are_sought`: an array class is sought among the classes; refused by `class_searched`.

mod callee;
mod entry;
mod found;
mod made;
mod operand;
mod pool;
mod selections;
mod sources;
mod special;

pub use made::{LinkedCalls, linked_calls};
pub use sources::CallSources;
