//! Which places of linked code the instructions of a method's code have.
//!
//! # Proved
//!
//! - `Places::new`: for code of less than 65,536 bytes and its boundaries, `starts` has for each place of linked code
//!   the offset of the instruction, 65535 for a part of a switch, and then the length of the code (`offsets`); `places`
//!   has for each boundary its place (`place_of`): as many as the instructions before it have. A place is no more than
//!   its offset.
//! - `part_count` is how many parts an instruction has.

mod count;
mod places;

pub use count::part_count;
pub use places::Places;
