//! Which methods calls run, by number.
#![tactic(auto)]

pub mod method_links;
pub mod selection_tables;
