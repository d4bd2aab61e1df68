//! The actions of a run as its machine has them, by the numbers of objects, threads, classes and fields; and each of
//! them as a step for a detector of races.
#![tactic(auto)]

pub mod action_detector;
pub mod named_actions;
pub mod numbering;
pub mod run_actions;
