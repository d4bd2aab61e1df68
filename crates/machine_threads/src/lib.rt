//! How threads open, begin, act, wait and end.
//!
//! # Wrong bodies
//!
//! - Planted by `rt plant`: 16 functions, 1 untried; 19 bodies judged, 1 not judged, 21 not run; proved 2: an event,
//!   and an instruction, that are tried at once answer that they were not done, which is not asked either.
#![tactic(auto)]

pub mod instruction_events;
pub mod instruction_needs;
pub mod machine_opening;
pub mod pending_exceptions;
pub mod thread_begins;
pub mod thread_events;
pub mod thread_wakes;
pub mod waiting_instructions;
