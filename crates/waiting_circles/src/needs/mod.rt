//! What the next event of a thread needs that another thread may hold: a monitor (JLS 17.1; JVMS 2.11.10), or a class
//! that must be initialised first (JVMS 5.2, 5.5).
//!
//! # Proved
//!
//! - `next_need`: in each state that is shown, what the definitions say that the next event of the thread needs
//!   (`next_need`), a class by its number (`NeedsNext`). A class in progress elsewhere comes first.
//!
//! # Wrong bodies
//!
//! - `needs-full-stack`: a call needs a monitor where the stack has as many frames as it may have; refused by
//!   `frame_need`.
//! - `needs-pending`: a thread in which an exception is pending needs what its instruction needs; refused by
//!   `running_need`.

mod begins;
mod calls;
mod direct_calls;
mod frames;
mod instructions;
mod kinds;
mod threads;

pub use kinds::Need;
pub use threads::next_need;
