//! Theorems on monitors over the definitions of a step: of which object an event may change the owner of the monitor.
#![tactic(auto)]

pub mod owners;
