//! Which events of a run race, on programs written out: each function here is a theorem, and does nothing.
//!
//! # Proved
//!
//! Theorems by computation: for a program and a schedule, which pairs of events race, and that no others do.
//!
//! - Locks, and none: `lost_update`, which also has a state that is racy and one that isn't; `locked`, with one monitor
//!   and with two, wait and notify, a thread found alive or ended, and a wait that a thread's end ends.
//! - Volatile variables, and the same programs without: `flags`, `double_checked`.
//! - Elements of arrays: `elements`. Interrupts, found or cleared, and of a thread just started or ended: `interrupts`.
//! - What a class's initialiser wrote, read by who needs the class before, by who doesn't, and by the initialiser of a
//!   class below it: `initialised`.
//!
//! # Not proved
//!
//! - Nothing of other schedules of these programs.

ghost use Rattle.data_races.specs.race_examples.DoubleChecked.{DoubleChecked};
ghost use Rattle.data_races.specs.race_examples.Elements.{Elements};
ghost use Rattle.data_races.specs.race_examples.Flags.{Flags};
ghost use Rattle.data_races.specs.race_examples.Initialised.{Initialised};
ghost use Rattle.data_races.specs.race_examples.Interrupts.{Interrupts};
ghost use Rattle.data_races.specs.race_examples.Locked.{Locked};
ghost use Rattle.data_races.specs.race_examples.LostUpdate.{LostUpdate};

/// Two threads that add 1 to a static field with no monitor.
pub fn lost_update()
    ensures holds { LostUpdate }
{}

/// A flag that a thread spins on, not volatile and volatile.
pub fn flags()
    ensures holds { Flags }
{}

/// Threads that write elements of one array.
pub fn elements()
    ensures holds { Elements }
{}

/// Variables that are handed over: by a monitor, wait and notify, the start and the end of a thread.
pub fn locked()
    ensures holds { Locked }
{}

/// What an interrupt hands over, what a cleared one does, and that a thread is found started.
pub fn interrupts()
    ensures holds { Interrupts }
{}

/// What the initialiser of a class hands over, and to whom.
pub fn initialised()
    ensures holds { Initialised }
{}

/// Double-checked locking, with a field that is not volatile and with one that is.
pub fn double_checked()
    ensures holds { DoubleChecked }
{}
