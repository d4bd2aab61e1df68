//! How the definitions of a data race meet: of runs, and of states.
#![tactic(auto)]

pub mod racy_states;
