//! What the instructions of a thread do.
//!
//! # Wrong bodies
//!
//! - Planted by `rt plant`: 35 functions, 0 untried; 39 bodies judged, 1 not judged, 59 not run; proved 5: four calls
//!   and a return that are tried at once answer that they were not done, which is not asked (docs/DESIGN.md).
#![tactic(auto)]

pub mod called_methods;
pub mod field_instructions;
mod leaving;
pub mod local_instructions;
pub mod monitor_instructions;
pub mod returns;
pub mod thread_methods;
pub mod type_instructions;
