//! Data races as conflicts of a search: two threads are in conflict where their next events do conflicting accesses.
#![tactic(auto)]

pub mod free_events;
pub mod lasting_races;
