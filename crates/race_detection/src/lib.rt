//! The data races of a run, found in one pass by vector clocks. Variables, threads and what synchronizes are numbers
//! here.
#![tactic(auto)]

pub mod last_accesses;
pub mod race_detector;
pub mod run_steps;
pub mod vector_clocks;
