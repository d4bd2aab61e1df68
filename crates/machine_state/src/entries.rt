//! What becomes of the monitors and the threads of a machine becomes of those of the world that it shows, and a
//! monitor is refused at a limit that stands. Each function here is a theorem, and does nothing.
//!
//! # Proved
//!
//! - Of a machine that shows a world: what becomes of its monitors and threads becomes of the world's
//!   (`monitors_are_shown`, `threads_are_shown`, `both_are_shown`). Where counts are right, an entry and a wait are
//!   those of the world, with no limit standing and the locks fat that they make fat. A refusal tells the limit that
//!   stands, or memory was missing, and nothing has changed (`entries_are_shown`, `waits_are_shown`).

ghost use Rattle.machine_state.specs.entries.Changes.{AreMonitorsShown, AreThreadsShown, AreBothShown};
ghost use Rattle.machine_state.specs.entries.Entered.{AreEntered, AreWaiting};

/// An event of monitors, done to those of the heap, is done to those of the world.
pub fn monitors_are_shown()
    ensures holds { AreMonitorsShown }
{}

/// An event of threads, done to the table of threads, is done to those of the world.
pub fn threads_are_shown()
    ensures holds { AreThreadsShown }
{}

/// An event of monitors and threads, done to both, is done to those of the world.
pub fn both_are_shown()
    ensures holds { AreBothShown }
{}

/// An entry of a monitor is that of the world, where no limit stands; one that is refused is at a limit that stands,
/// or for want of memory.
pub fn entries_are_shown()
    ensures holds { AreEntered }
{}

/// A wait is that of the world, where no limit stands; one that is refused is at a limit that stands, or for want of
/// memory.
pub fn waits_are_shown()
    ensures holds { AreWaiting }
{}
