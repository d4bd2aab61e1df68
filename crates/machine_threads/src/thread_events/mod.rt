//! The event of a thread (JVMS 2.6, 2.10, 5.5; JLS 17): by what the thread is about, by the exception that is pending
//! in it, and by what is on top of its stack.
//!
//! # Proved
//!
//! - `thread_event`: what becomes of the event of a thread, whole (`settled` of the model's `thread_event`), in
//!   whatever state of linked files its own stack is lent: one that waits or has ended is not enabled; one that has
//!   left a wait set enters the monitor again; one that runs takes the pending exception, begins, does the next step of
//!   a class, or does the instruction of its frame on top; and the end of the thread belongs to the event that empties
//!   its stack. Each refusal leaves all as it was. `frame_event` is the same event, of a thread that runs, with no
//!   exception pending, at an instruction that is known (`RunsAt`). `event_at_once` answers that it is done only where
//!   it is, with the end of the thread; else nothing has changed. That it ever answers so isn't asked: it spares time.
//!
//! # Not proved
//!
//! - Not proved: that there is no memory where the answer says so.

mod events;
mod running;
mod settling;
mod unpicked;

pub use events::{event_at_once, frame_event, thread_event};
