//! The constants of static fields (JVMS 4.7.2), by the slots and words that a run puts them with.
//!
//! # Proved
//!
//! - `constants_of`: for each class of linked files the constants of its fields, in their order, each with its slot
//!   among the static fields of all files, and with the word that the field keeps of it; the word of a String is the
//!   reference of its object and one (`AreConstants`). Its only error is a want of memory.
//! - `next_slot`: the slot at which the static fields of the next class begin; no count of slots passes 32 bits.

mod constants;
mod slots;
mod value;
mod word;

pub use constants::constants_of;
pub use slots::next_slot;
