//! Counts of monitors, and which locks are inflated: each function here is a theorem, and does nothing.
//!
//! The lemmas in `proofs/` are there for a crate above to cite.
//!
//! # Proved
//!
//! Of all files and states, typed or not, over values and over words. Counts are right (`AreMonitorsCounted`), with
//! some locks fat, where each monitor without an owner has no entries and each with one has at least one. Each member
//! of a wait set, and each thread that is in one or is to enter a monitor again, is to enter it at least once. The lock
//! of that object is fat then (JLS 17.1, 17.2.1).
//!
//! - In the opening state counts are right, whichever locks are fat (`openings_are_counted`). Each event keeps them
//!   right, with those locks fat that were and, by what the event takes, the one of an entry 257 or of a wait that
//!   joined (`counts_are_kept`, `is_fat_after`).
//! - Of runs: one more event leads on from the state of the run, and inflates by what it takes, as a list of objects
//!   and as a test of an object (`runs_go_on`); in each state of a run counts are right with the locks fat that its
//!   events inflated (`runs_are_counted`).

ghost use Rattle.run_laws.specs.monitor_counts.Counts.{AreCountsKept, AreOpeningsCounted, AreRunsCounted, AreRunsLonger};

/// In the opening state no thread waits and no monitor is owned, over values and over words.
pub fn openings_are_counted()
    ensures holds { AreOpeningsCounted }
{}

/// Each event keeps counts, over values and over words, typed or not: an owner has entered at least once, and without
/// one there are no entries; a thread that is to enter a monitor again enters it at least once, and the lock of that
/// object is fat.
pub fn counts_are_kept()
    ensures holds { AreCountsKept }
{}

/// One more event of a run inflates by what it takes.
pub fn runs_go_on()
    ensures holds { AreRunsLonger }
{}

/// In each state of a run counts are right, with the locks fat that its events inflated.
pub fn runs_are_counted()
    ensures holds { AreRunsCounted }
{}
