//! The listings of class files.
#![tactic(auto)]

pub mod class_listings;
pub mod disasm;
pub mod left_out_opcodes;
pub mod named_listing;
pub mod printed_names;
