//! Runs of a program: by a schedule, by workers, by policies, told event by event.
//!
//! # Wrong bodies
//!
//! - Planted by `rt plant`: 26 functions, 11 untried; 57 bodies judged, 21 not judged, 5 not run; proved 2: another
//!   number of workers and another seed, since nothing is promised of the schedule that they make.
#![tactic(auto)]

pub mod continued_runs;
pub mod policies;
pub mod recorded_replays;
pub mod traced_runs;
pub mod verified_programs;
pub mod workers;
pub mod worlds;
