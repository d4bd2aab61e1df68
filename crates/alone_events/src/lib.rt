//! Events of a thread that are alone, told by what they did: a search over all schedules may go past the states before
//! them.
//!
//! Whether an event is alone is seen from the stack of its thread before it and after it, so that no instruction has to
//! be looked at: a machine does the event, and where it wasn't alone, the machine is one event too far. So the
//! instruction is looked at before, for a guess, of which nothing is proved.
//!
//! # Proved
//!
//! - `go_ahead` (`GoesAhead`): where it answers `Stays`, no event was done, and whatever run was shown is shown. Else
//!   the next event of the thread was done, with pick 0. Where it answers `Alone`, the thread ran in a frame before and
//!   after, with no exception pending, and the event called a method or returned from one, by which no monitor was
//!   entered or left (`HasCalledOrReturned`), or left a monitor that the thread owned, and the stack got no deeper
//!   (`HasLeftMonitor`). Such an event is alone behind each run that was shown, and in no race, whatever the others do
//!   first (`AreAloneAfter`). Where it answers `Past`, the event was no such call or return.
//!
//! # Not proved
//!
//! - Not said: that an event which is alone is done, or seen to be so; that of `Past` no monitor was left.
//!
//! # Wrong bodies
//!
//! - `entered-monitors-are-passed-over`, `left-monitors-are-passed-over`: a call of a synchronized method, or the
//!   return from one, is taken for one of another method; refused by `HasMovedBy`, of `has_moved`.
//! - `any-owner-will-do`, `owned-monitors-are-left`: a monitor counts as owned whoever owns it, or as left though the
//!   thread owns it still; refused by the contracts of `owns` and of `has_left`.
//! - `each-event-is-alone`: whatever was done is told to be alone; refused by `Tells`, of `told`.
#![tactic(auto)]

mod ahead;
mod guesses;
mod seen;
mod theorems;

pub use ahead::{Ahead, go_ahead};
