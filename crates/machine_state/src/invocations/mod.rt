//! Invocations of methods with code (JVMS 2.6.4, 2.11.10): a new frame, and the monitor that a synchronized method
//! enters.
//!
//! # Proved
//!
//! - In each world that is shown: `call` and `first_call` are the step's `pushed`. A new frame stands with its
//!   arguments, and a synchronized method's monitor is entered; or a StackOverflowError is to be raised; or the event
//!   isn't enabled, since another thread owns the monitor; or it is refused at the limit that stands or for want of
//!   memory. In the latter three nothing has changed.
//! - Asked of callers: the object of the monitor is there.

mod entering;
mod frames;

pub use frames::{call, first_call};
