//! What the text of a report says: theorems over its definition.
#![tactic(auto)]

pub mod printed_parts;
