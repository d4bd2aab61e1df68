//! A run that goes on where a schedule ends: its events are done, and then the threads go on in turn.
//!
//! # Proved
//!
//! - `run_on` (`GoesOn`), for all accepted files, schedules, limits and budgets, memory aside: it answers one of two.
//!   So does `run_linked_on`, which is handed the linked program of the files (`IsProgramOf`), and tells no gate of it.
//!   - `Whole`: the record of a run of these files, under these limits and with this budget, as `worlds` says it. Its
//!     events begin with those of the schedule: with all of them, or with as many as the budget (`Continues`). Behind
//!     them each is of the first thread in rotation that has an enabled event, and picks the first waiter; the rotation
//!     begins at thread 0, and each further one behind the thread of the event before (`AreInTurn`).
//!   - `Part`: the report and the end of a replay of the schedule; and only where the end is that an event isn't
//!     enabled, or that a limit which stands refuses it, and the budget would have allowed it (`IsCutShort`). So a want
//!     of memory is no such end.
//!
//! # Not proved
//!
//! - Nothing is said of when a want of memory is answered.

mod following;
mod rotation;
mod run;
mod untold;

pub use run::{Continued, run_linked_on, run_on};
