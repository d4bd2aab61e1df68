//! What the next events of threads read and write (JLS 17.4.2), by the words of a machine; and whether the state that a
//! machine shows is racy.
#![tactic(auto)]

pub mod access_conditions;
pub mod access_tables;
pub mod accesses;
mod accessing_calls;
mod builder_texts;
mod copied_variables;
mod element_ranges;
pub mod next_access;
pub mod racy_states;
pub mod read_operands;
