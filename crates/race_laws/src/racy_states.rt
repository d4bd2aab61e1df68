//! What a racy state says of runs: each function here is a theorem, and does nothing.
//!
//! # Proved
//!
//! - A run that leads to a racy state goes on, by the next events of two threads, to one that has a data race
//!   (`racy_states_have_races`). So no run of a program that is correctly synchronized leads to a racy state
//!   (`correct_programs_are_never_racy`).
//!
//! # Not proved
//!
//! - The converse: that a program with a run that has a race has one to a racy state. What is missing is that the
//!   events which don't happen before the second access can be left out of a run, up to the names of objects and
//!   threads.

ghost use Rattle.race_laws.specs.racy_states.Bridge.{AreCorrectProgramsNeverRacy, DoRacyStatesRace};

/// A run that leads to a racy state goes on to one that has a data race.
pub fn racy_states_have_races()
    ensures holds { DoRacyStatesRace }
{}

/// No run of a program that is correctly synchronized (JLS 17.4.5) leads to a racy state.
pub fn correct_programs_are_never_racy()
    ensures holds { AreCorrectProgramsNeverRacy }
{}
