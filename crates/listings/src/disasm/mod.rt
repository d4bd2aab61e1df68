//! The listing of a class file.
//!
//! # Proved
//!
//! - `list`, over any writer: it writes the listing of the tree that the definitions give and nothing else, or before
//!   an error a beginning of it (`written`); the writer's failures are counted (`counted`). Each line by itself is the
//!   definition's, too (`class_line`, `instruction_line` ..).
//!
//! # Not proved
//!
//! - Shown by cases too: lines of each form; and by `compare/javap.py`: listings against those of javap.

mod instruction;
mod listing;
mod member;
mod names;
mod numbers;
mod operands;
mod switches;

pub use instruction::{instruction_line, push_meaning};
pub use listing::list;
pub use member::{bare_method_line, catch_line, class_line, field_line, method_line};
pub(crate) use numbers::push_hex_byte;
