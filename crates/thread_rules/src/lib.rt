//! What a thread does next, by the words of a machine: by which rule its event goes (JVMS 2.6, 2.10, 5.2, 5.5; JLS 17),
//! and which class has to be initialised first.
#![tactic(auto)]

pub mod needed_classes;
pub mod next_rules;
