//! What each command does over a folder, by its engine.
//!
//! # Proved
//!
//! - Each function of a command is what `IsDone` and `IsUndone` say of it; `run` takes it whole.

mod before_files;
mod event_traces;
mod given_files;
mod outcome_files;
mod outcome_texts;
mod placings;
mod race_tellings;
mod replays;
mod run_pages;
mod runs;
mod schedules;
mod searches;
mod seed_sweeps;
mod shrinks;
mod storing;
mod wanted_outcomes;

pub(crate) use before_files::unread;
pub(crate) use event_traces::trace;
pub(crate) use given_files::{disasm, verify};
pub(crate) use placings::places;
pub(crate) use race_tellings::races;
pub(crate) use replays::replay;
pub(crate) use runs::run;
pub(crate) use schedules::schedule;
pub(crate) use searches::search;
pub(crate) use shrinks::shrink;
