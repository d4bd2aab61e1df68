//! The event of a thread in which an exception is pending (JVMS 2.10, 5.5): a handler takes it, or it ends the frame
//! on top or the initialisation of the class on top.
//!
//! # Proved
//!
//! - `pending_event` is the event of a thread in which an exception is pending (JVMS 2.10, 5.5), at words of any
//!   well-typed state in which the thread has not ended. The frame on top goes on at the first of its handlers that
//!   takes the exception, with the exception alone on its stack, and nothing is pending then; without a handler the
//!   frame ends, as `unwind` says. A class on top is erroneous, as `fail` says. With an empty stack the event is not
//!   enabled. Each refusal leaves all as it was. Where a handler takes the exception, the event may be refused only for
//!   want of memory, and only where the frame had no operand.
//!
//! # Not proved
//!
//! - Not proved: that there is no memory where the answer says so.

mod catching;
mod finding;
mod pending;

pub use pending::pending_event;
