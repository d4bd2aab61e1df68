//! What a machine shows, as a report tells it: how each thread stands, and what was printed (JVMS 2.6,
//! 2.10, 5.5; JLS 17).
//!
//! # Proved
//!
//! - `thread_ends`, memory aside: each thread of the state that is shown, in order, as the definitions tell it
//!   (`TellEnds`); `is_quiet`: whether no thread has an event that is enabled.
//! - `report_of` (`Reports`), memory aside: the report of the state that is shown, after so many events.

mod ends;
mod reports;

pub use ends::{is_quiet, thread_ends};
pub use reports::report_of;
