//! The data races of a run of a program (JLS 17.4.5), told in one pass over its events.
#![tactic(auto)]

pub mod finder;
pub mod race_lines;
pub mod raced_runs;
