//! Where an instruction leads from a frame type, and the frame types that it leaves there (JVMS 4.10.2.2).
//!
//! # Proved
//!
//! - `lead_on`, memory aside: where an instruction leads from a frame type, which is changed in place, is what the
//!   definitions say of its meaning (`successors`), with the mark of constructors.

mod application;
mod lead;

pub use lead::lead_on;
pub(crate) use lead::names_constructor;
