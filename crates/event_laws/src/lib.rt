//! Theorems over the definitions of a step, which the actions of events rest on: what an event may change of classes
//! and threads, what the count of a monitor tells, and whether an instruction does the accesses that it names.
#![tactic(auto)]

pub mod access_outcomes;
pub mod entered_monitors;
pub mod event_changes;
pub mod meant_monitors;
