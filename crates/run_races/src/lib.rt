//! The data races of a run of actions (JLS 17.4.5), told in one pass over them, each with the places in code of its
//! accesses.
#![tactic(auto)]

pub mod labels;
pub mod named_races;
pub mod race_finder;
pub mod told_races;
