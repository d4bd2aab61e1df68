//! Which methods that wait for threads, or find, start or interrupt them, the calls of frames run (JVMS 6.5), by the
//! words of a machine.
#![tactic(auto)]

pub mod call_tables;
pub mod thread_methods;
