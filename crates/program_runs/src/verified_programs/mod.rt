//! Verified class files, linked and run: here the verifier and the machine meet.
//!
//! # Proved
//!
//! - `verified_program`: the linked program of verified class files, which are accepted (`IsProgramOf`). Its only error
//!   is a want of memory.
//! - `open_machine`: the machine of verified class files has done no event of a run of theirs (`IsOpened`).
//! - `replay`: what is proved of `replay` of `machine_replay`, for verified class files; the same of `replay_shown`,
//!   which shows a gate what is printed (`IsReplay`).

mod program;
mod shown;

pub(crate) use program::open_linked_machine;
pub use program::{open_machine, replay, verified_program};
pub use shown::replay_shown;
