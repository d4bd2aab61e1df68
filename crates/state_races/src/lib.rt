//! The data race of a state to which a run comes: accesses of the next events of two threads (JLS 17.4.5).
#![tactic(auto)]

pub mod next_races;
pub mod reached_races;
