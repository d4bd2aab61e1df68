//! A test that computes the data races of a run: each function here is a theorem, and does nothing.
//!
//! # Proved
//!
//! - Two actions of a run race by the definition exactly where `races_of` lists their places
//!   (`the_test_finds_all_races`).
//! - In `proofs/` stands also, over any kind of actions: what one more action changes of happens-before (`Order`), and
//!   that a run whose actions have other names, such as numbers, has the same races (`Mapped`).
//!
//! # Not proved
//!
//! - Nothing of racy states (`IsRacy`): the module `racy_states` says of a run to one that it goes on to a race.

ghost use Rattle.data_races.specs.race_tests.Tests.{AreAllRacesFound};

/// Two actions of a run race exactly where the test lists their places.
pub fn the_test_finds_all_races()
    ensures holds { AreAllRacesFound }
{}
