//! Events that are in no race, whatever the other threads do first. Each function here is a theorem, and does nothing.
//!
//! A thread is in a race with another one where the next events of both, each of them enabled, do conflicting accesses
//! (`are_racing`). A search may go past an event first that is in none, whatever the others do (`IsFreeOf`).
//!
//! # Proved
//!
//! Of states of runs of accepted files, there are in no race, whatever the other threads do first:
//!
//! - a local event (`local_events_are_free`);
//! - a call or a return, as the stack of its thread tells, by which no monitor is entered or left
//!   (`calls_and_returns_are_free`);
//! - an event by which a thread leaves a monitor that it owned, and runs on (`events_that_leave_monitors_are_free`).
//!
//! # Not proved
//!
//! - Not said: which accesses are in no race, as the get of a field that no instruction puts.

ghost use Rattle.racing_threads.specs.free_events.Free.{AreLocalEventsFree, AreMovesFree, AreReleasesFree};

use monitor_laws::owners::owners_are_kept;

/// A local event is in no race.
pub fn local_events_are_free()
    ensures holds { AreLocalEventsFree }
{}

/// A call or a return that enters and leaves no monitor is in no race.
pub fn calls_and_returns_are_free()
    ensures holds { AreMovesFree }
{}

/// An event by which a thread leaves a monitor, and runs on, is in no race.
pub fn events_that_leave_monitors_are_free()
    ensures holds { AreReleasesFree }
{
    owners_are_kept();
}
