//! Reading bytes from left to right, with named faults and their offsets: what the crates for class files and for
//! schedule files share.
//!
//! # Proved
//!
//! - Each method of `Reader` gives the number or the bytes that stand at its place and moves past them where they are
//!   there, and else answers `Truncated` at its place, memory aside (`Gives` with `number_at`, `bytes_at`, `inner_at`).
//! - In `proofs/reading/`: the laws by which a format of fields is read both ways, and the combinators that put them
//!   together.

mod fault;
mod reader;

pub use fault::{Cause, Malformed, Stop};
pub use reader::Reader;
