//! The table of Java threads, by their numbers: all of a thread but its stack.
//!
//! # Proved
//!
//! - `Threads`, the table of threads but for their stacks: `new` has main's thread alone, memory aside; `add` puts a
//!   started thread last, or is refused for `Threads` exactly where as many as may be have been started, main's
//!   included, or for want of memory below that, and then nothing has changed (`IsAdded`); `is_full` tells which of
//!   these.
//! - Each getter gives, and each setter writes, one part of the thread of a number (Thread object, whether it has
//!   begun, the pending exception, whether it is interrupted, status), and nothing else. None of them takes memory.
//!   There are 1 to 32,767 threads, so each has a number below 32,767; to read another number gives the thread that the
//!   definitions give for it, to write it does nothing. `number` finds the thread of a Thread object.
//!
//! # Wrong bodies
//!
//! - Planted by `rt plant`: 17 functions, 0 untried; 75 bodies judged, 2 not judged, 0 not run; none proves.

mod refusal;
mod status;
mod thread;
mod threads;

pub use refusal::ThreadRefusal;
pub use status::{ThreadStatus, WakeCause};
pub use threads::Threads;
