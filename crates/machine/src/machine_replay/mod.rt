//! Replaying a schedule: the machine of many threads, over the program of any class files that are accepted.
//!
//! # Proved
//!
//! - `replay` (`IsReplay`), memory aside, for the linked program of all accepted files (`IsProgramOf`) and every
//!   schedule: some beginning of the schedule's events was done, and no limit stood at any of them; printed text and
//!   thread states are those of the state that `run` gives after them, the number of events is theirs, and the text of
//!   the report is their `meaning` with this end. The end is one of four:
//!   - `Schedule`: all events were done, and some thread has an event that is enabled;
//!   - `Quiet`: all events were done, and no thread has;
//!   - `NotEnabled`: the next event is not enabled in that state;
//!   - `Refused`: the next event is enabled, and the limit that is told stands at it, or it takes memory
//!     (`MayWantMemory`), and there was none for it.
//!
//! # Not proved
//!
//! - Shown by cases too: programs with objects, calls, exceptions, initialisers and threads.
//! - Shown by cases alone: that events are done where memory is there.
//!
//! # Wrong bodies
//!
//! - `machine_replay-ends-early`: a replay ends before its schedule and says that it is used up; refused by `ended` of
//!   `IsReplay`.
//! - `machine_replay-kept-answer`: a report that is not that of the events; refused by `Tells`: the report is of the
//!   events that were done.

mod run;

pub use run::{replay, report_after};
