//! How a thread stands, and whether it has an event that is enabled, found with no event done (JVMS 2.6, 2.10, 5.2,
//! 5.5; JLS 17).
//!
//! # Proved
//!
//! - `standing_of`: in whatever state of linked files is shown, it is how the thread stands by the definitions of a
//!   report over words, an exception by the number of its class (`StandsSo`); `may_step`: whether the thread has an
//!   event that is enabled (`MaySo`).

mod begins;
mod classes;
mod monitors;
mod running;
mod runs;
mod threads;

pub use machine_threads::waiting_instructions::Standing;
pub use threads::{may_step, standing_of};
