//! How much the files of a program may have (own), and whether it has a method to begin with (JVMS 5.2).
//!
//! # Proved
//!
//! - `is_too_large` and `has_no_main` are the conditions TooLarge and NoMain of the definitions;
//!   `first_with_too_many_fields` answers the first file whose class has more than 65,535 instance fields that count
//!   as cells. Memory aside.
//! - `own_cells` is how many of the instance fields that a class itself declares count for the limit on cells.
//! - `TextSet`, memory aside: it is the list of the texts that were added, each once, in the order in which they came;
//!   `add_texts` adds those of a file's string constants, `number_of` is a text's place in the list, and `text` the one
//!   at a place.

mod cells;
mod climb;
mod fields;
mod main_method;
mod size;
mod text_set;

pub use cells::own_cells;
pub use fields::first_with_too_many_fields;
pub use main_method::has_no_main;
pub use size::is_too_large;
pub use text_set::{TextSet, add_texts};
