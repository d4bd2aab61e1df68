//! What is told to a person: why files are refused, and what the threads of a run are about.
#![tactic(auto)]

pub mod refusal_explanations;
pub mod thread_explanations;
