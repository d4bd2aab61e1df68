//! The races that are told, as those of a run of class files: the functions here are theorems, and do nothing.
//!
//! # Proved
//!
//! - `races_are_named`: where the actions of which a finder was told are those of a run, each with the number of its
//!   place in code (`AreOfRun`), each race that was told is one of the run, its accesses are of its variable, and stood
//!   where is told; and each access that races with an earlier one has one told (`AreRaces`).
//! - `actions_are_added`: so it is after one more event of the run, with its actions.

ghost use Rattle.run_races.specs.named_races.Named.{AreActionsAdded, AreRacesNamed};

/// The races that are told are those of the run.
pub fn races_are_named()
    ensures holds { AreRacesNamed }
{}

/// The actions of one more event are those of the run.
pub fn actions_are_added()
    ensures holds { AreActionsAdded }
{}
