//! What linking asks of a set of class files, and how it says no.
#![tactic(auto)]

pub mod class_rules;
mod hidden_members;
pub mod limits_of_linking;
pub mod refusal;
pub mod resolution;
