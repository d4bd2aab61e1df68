//! Which fields instructions name (JVMS 5.4.3.2), by the numbers of the classes that declare them and their places
//! among the fields of these; and that no two classes or fields have one name.
#![tactic(auto)]

pub mod instance_variables;
pub mod named_fields;
mod variables;
