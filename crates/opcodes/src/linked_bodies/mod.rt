//! The code of a method, linked.
//!
//! # Proved
//!
//! - `link_code`: for code of less than 65,536 bytes whose boundaries each begin an instruction, jump to boundaries and
//!   have a row for what they name (`CanLink`), the instructions are `AreLinked` in each program and method with that
//!   code, pool and rows: each place is what the instruction at its offset means, with both switches, whose parts have
//!   places of their own.
//! - `link_body`: the whole `LinkedCode` of a Code attribute is `IsCode`, with the handlers in the order of the table;
//!   what it asks besides is that handlers begin at boundaries, and that what they catch has a row (`CanCatch`).
//! - `goes_on`, within `AreLinked`: the next place of each instruction has the offset behind it, also behind switches
//!   and at the end of the code.
//! - Linked files meet what is asked, where the tables are complete (`linkable_code`). `linked_methods` calls it.
//!
//! # Not proved
//!
//! - Not proved: that `link_body` goes once over the bytes of the code, and over each part of a switch.

mod body;
mod code;
mod handlers;
mod instruction;
mod parts;

pub use body::{CodeAttribute, link_body};
pub use code::link_code;
pub use handlers::link_handlers;
pub use parts::push_parts;
