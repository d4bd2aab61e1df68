//! Races between the next events of two threads last: each function here is a theorem, and does nothing.
//!
//! Two threads race in a state (`are_racing`) where the next event of each of them is enabled with pick 0, and the one
//! and the other do conflicting accesses (JLS 17.4.1): of one variable that isn't volatile, at least one of them a
//! write. These are the premises of a search whose conflicts are races (`IsToldByWords`, `IsLastingConflict`).
//!
//! # Proved
//!
//! Of accepted files:
//!
//! - In well-typed states with the same words the same threads race (`races_are_told_by_words`, `AreRacesTold`).
//! - Where one thread races with another, that one races with the first. In a state of a run, an event of a third
//!   thread leaves both of them in their race (`races_last`, `DoRacesLast`).
//!
//! # Not proved
//!
//! - Not said: that an event with another pick than 0 accesses no variable.

ghost use Rattle.racing_threads.specs.lasting_races.Lasting.{AreRacesTold, DoRacesLast};

/// Whether the next events of two threads do conflicting accesses, the words of a state tell.
pub fn races_are_told_by_words()
    ensures holds { AreRacesTold }
{}

/// Events of other threads keep that the next events of two threads do conflicting accesses.
pub fn races_last()
    ensures holds { DoRacesLast }
{}
