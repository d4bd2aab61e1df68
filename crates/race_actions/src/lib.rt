//! The actions that events do (JLS 17.4.2), told by the state of a machine before an event and after it.
#![tactic(auto)]

pub mod event_actions;
pub mod finds;
pub mod looking;
pub mod race_tables;
