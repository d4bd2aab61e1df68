//! The synchronization actions of an event (JLS 17.4.2, 17.4.4; 12.4.2) that whole states tell, before the event and
//! after it: whom the end of a thread wakes, which class is done, and which monitor a new invocation entered.
#![tactic(auto)]

pub mod changed_monitors;
pub mod class_ends;
pub mod looked_classes;
pub mod meant_before;
pub mod wait_ends;
