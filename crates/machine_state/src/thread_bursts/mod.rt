//! Bursts as events of a thread: what the loop over linked code does, in the words of the definitions.
//!
//! # Proved
//!
//! - `steps_are_events`, of local instructions by linked code, whatever did them, the loop of `local_bursts` and a
//!   `Burst` among them (`IsLocalBurst`). Take any files, any linked code of a method of theirs (`AreLinked`), and any
//!   state over words, well typed or not, in which the frame is on top of the stack of a thread that runs with no
//!   exception pending. Then what it did is as many events of that thread with pick 0, each enabled and free
//!   (`stepped words`), and they lead to the state that has the new frame there and is the same in all else. So it may
//!   run while other threads change what they share.
//! - `events_join`: events of a thread go on where others have led.

mod theorems;

pub use theorems::{events_join, steps_are_events};
