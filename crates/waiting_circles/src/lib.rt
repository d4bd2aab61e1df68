//! Whether threads wait in a circle, each for what the next one holds: a deadlock (JLS 17.1; JVMS 5.5).
#![tactic(auto)]

pub mod circles;
pub mod holders;
pub mod needs;
pub mod rounds;
