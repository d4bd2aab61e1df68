//! The end of threads, and their return from wait sets (JLS 17.2.1; JVMS 2.10).
//!
//! # Proved
//!
//! - `settle`: whichever event of a thread was done, the step with the end of the thread that may belong to it
//!   (`settled`) is done too: where its stack is empty and it has begun or an exception is pending, it has ended, and
//!   all that wait on its Thread object are woken (JVMS 2.10; JLS 17.2). Nothing is asked of the caller.
//! - `relock_event`: what becomes of the event of a thread that has left a wait set (JLS 17.2.1): not enabled while a
//!   thread owns the monitor; notified, it enters the monitor as often as before and goes on behind its call;
//!   interrupted, an InterruptedException is pending too, or is refused at a limit or for want of memory with nothing
//!   changed.

mod ends;
mod relocking;

pub use ends::settle;
pub use relocking::relock_event;
