//! Tests of what no clause says and no case can show: verification within few steps, how long rows of selected methods
//! are, and workers side by side.
//!
//! # Not proved
//!
//! The tests stand in a crate of their own, so that no crate with bodies is proved twice, and on as few crates as they
//! call.
#![tactic(auto)]

#[cfg(test)]
mod class_files;
#[cfg(test)]
mod linking_tests;
#[cfg(test)]
mod program;
#[cfg(test)]
mod verification_tests;
#[cfg(test)]
mod worker_tests;
