//! What an event did, told by the state of a machine before it and after it (JVMS 2.6, 2.10, 5.2, 5.5; JLS 17).
//!
//! # Proved
//!
//! - `Before::look`, memory aside: of the stack of a thread, by its number, the frame on top with the number of its
//!   method and the offset of its instruction, or the number of the class on top, or that neither is there
//!   (`IsSeenOf`).
//!
//! # Not proved
//!
//! - Nothing is proved of what `told_of` says that an event did but that it is safe and returns; shown by cases.

mod before;
mod built_in;
mod calls;
mod deed;
mod frames;
mod instructions;
mod monitors;
mod rules;
mod told;

pub use before::{Before, class_on_top};
pub use deed::{Deed, Entries};
pub use frames::FrameBefore;
pub(crate) use frames::offset_of;
pub use rules::{Rule, rule_of};
pub use told::{Told, told_of};
