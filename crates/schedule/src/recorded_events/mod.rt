//! A list of events that grows, as a run records it.
//!
//! # Proved
//!
//! - `RecordedEvents` is a list of events that grows at its end, kept as entries for runs of equal ones; its type keeps
//!   that each entry fits a schedule file, that they are joined, and that there are fewer than 2^32 events
//!   (`IsRecord`).
//! - `append` adds so many equal events behind the others and takes no memory; `reserve` makes room for one more run
//!   and changes no event, also where memory is wanted; `into_schedule` has the same events, in entries that are joined
//!   (`AreJoined`).
//!
//! # Wrong bodies
//!
//! - Planted by `rt plant`: 5 functions, 1 untried; 11 bodies judged, 1 not judged, 0 not run; proved 1: the real one.

mod recorded;

pub use recorded::RecordedEvents;
