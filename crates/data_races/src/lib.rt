//! Data races (JLS 17.4): which actions an event does, how happens-before orders them, and what it is to have a race.
//! In `specs/` these are definitions; each function here is a theorem over them, and does nothing.
#![tactic(auto)]

pub mod race_examples;
pub mod race_tests;
