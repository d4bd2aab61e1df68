//! The synchronization actions of an event (JLS 17.4.2, 17.4.4) that the tables of threads and monitors tell, before
//! the event and after it: what it finds of threads, whom it interrupts, which monitor it locks or unlocks, which
//! thread it starts, and whether it clears an interrupt.
#![tactic(auto)]

pub mod changes;
pub mod findings;
