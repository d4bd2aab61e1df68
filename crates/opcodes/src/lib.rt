//! The instruction at an offset of a method's code (JVMS 6.5).
//!
//! # Proved
//!
//! - `sized_at`, `decode_at`, `length_at` and `mnemonic` equal the definitions over the table of opcodes, for all bytes
//!   and offsets; an instruction lies within the code (`value`, `within`). `starts` marks exactly the instruction
//!   boundaries, as a list and as a relation, memory aside (`marks`, `boundaries`). `jump_count`, `table_jump` and
//!   `lookup_pair` are the operands of switches.
//!
//! # Not proved
//!
//! - Shown by cases too, of listings: mnemonics and lengths.
#![tactic(auto)]

mod boundaries;
mod bytes;
mod decoding;
mod families;
pub mod linkable_code;
pub mod linked_bodies;
pub mod linked_instructions;
pub mod linked_places;
mod mnemonics;
mod switches;

pub use boundaries::starts;
pub use decoding::{decode_at, length_at, sized_at};
pub use mnemonics::mnemonic;
pub use switches::{jump_count, lookup_pair, table_jump};
