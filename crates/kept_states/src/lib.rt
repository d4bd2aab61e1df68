//! States of a machine, each kept as a list of numbers of its parts: objects with their monitors, threads with their
//! stacks, and what else threads share. Each part is written once (collapse compression: G. Holzmann, State Compression
//! in SPIN, 1997).
//!
//! # Proved
//!
//! - A row stands for one state: two states of one row are alike (`rows_alike`), and where the same locks are inflated,
//!   too, all that is kept of them is the same (`states_one`). A row goes on to stand for its state (`row_stays`).
//! - `write` makes a row of a state. What is the same in the state before keeps its number. `find` answers only numbers
//!   of states with this very row. `push` keeps the state with the next number, and none goes.
//! - `read` answers only the state of the number, with the numbers of its parts. Its heap has counted as many cells.
//! - `copied` makes what threads share in another state, in the room of what they share in this one. What the one shows
//!   the copy shows (`shown_same`, `run_same`).
//!
//! # Not proved
//!
//! - That what is kept can be read, and that a state that is kept is found: then it is kept twice.
//! - After an error, which is a want of memory, nothing is claimed of what is kept.
//!
//! # Wrong bodies
//!
//! - `globals_before-another-limit`: the row of a state with a higher limit is taken for that of this one; refused by
//!   the contract of `are_same_limits`.
//! - `globals_before-another-count`, `count-is-not-kept`, `count-is-lost`: the row of a state with a lower count of
//!   cells is taken for that of this one, the count is kept as 0, or read as 0; refused by the contracts of
//!   `are_globals_before`, `push_globals` and `heap_of`.
//! - `globals_before-another-interned`, `globals_before-another-unnamed`, `interned-of-statics`,
//!   `copy-keeps-its-unnamed`: the row of a state with other interned Strings, or another count of Threads without a
//!   name, is taken for that of this one, the static fields are read as interned Strings, or a copy keeps its own
//!   count; refused by the contracts of `are_globals_before`, `read_shared` and `copied`.
//! - `thread_before-another-stack`: a thread keeps its number though its stack has changed; refused by that of
//!   `thread_before`.
//! - `read-flags-of-another-state`: a state is read with the inflated locks of another one; refused by that of `read`.
#![tactic(auto)]

mod copies;
mod globals;
mod numbered;
mod reading;
mod shared_rows;
mod states;
mod threads;

pub use copies::copied;
pub use numbered::Numbered;
pub use states::KeptStates;
