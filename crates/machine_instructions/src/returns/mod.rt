//! The end of an invocation, by a return or by an exception (JVMS 2.6.4, 2.6.5, 2.11.10), and where its invoker goes
//! on.
//!
//! # Proved
//!
//! - `return_from` is what `return`, `ireturn` and `areturn` mean of a thread that runs there. The invoker gets the
//!   result and goes on behind its call, and the monitor is left once. Where the thread doesn't own it, an
//!   IllegalMonitorStateException is to be raised and nothing has changed. A return of nothing is never refused; one of
//!   a value may be, for want of memory, where it goes to an invoker. `unwind` is `leaving` over the rest of the stack.
//!   `next_place_of_top` has the offset after the instruction of the frame on top, where frames stand in code.
//!   `return_alone` answers that the frame has returned only where that is done, and nothing that is shared has
//!   changed; else nothing has changed at all. That it ever answers so isn't asked: it spares time.
//!
//! # Wrong bodies
//!
//! - `returns-keeps-the-lock-on-exception`: an exception leaves a synchronized method, and its monitor stays entered;
//!   refused by `Unwinds` of `unwind`.

mod leaving;
mod places;
mod returning;
mod unwinding;

pub use places::next_place_of_top;
pub use returning::{return_alone, return_from};
pub use unwinding::unwind;
