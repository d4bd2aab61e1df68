//! Theorems on searches over all schedules: which events may be done first, alone, and what the states that a search
//! keeps tell of all runs.
#![tactic(auto)]

pub mod alone;
pub mod kept_states;
pub mod preemptions;
