//! What the methods of `java.lang.String` that have no code answer of texts and ints (the API of String).
//!
//! A text is a list of UTF-16 units, each a word. Ints are told by their bits.
//!
//! # Proved
//!
//! - Each function is the definition of `StringMethods` in `model` that has its name, of any words: `length`, `unit_at`
//!   (`charAt`), `is_same_text` (`equals`), `hash_code`, `compared` (`compareTo`), `index_of` and `regions_match`.
//! - So is each that may make a text: `joined` (`concat`), `part_of` (`substring`), `text_of_int` and `text_of_char`
//!   (`valueOf`). Only where the answer is a new text may it be refused, for want of memory (`IsAnswer`).
//! - What a StringBuilder makes is its text with more behind it: `appended` (the units of a text), `appended_int` (an
//!   int in decimal), `appended_char` (one unit) and `appended_null` (`null`). They err for want of memory alone.
//! - What an object tells of itself is a name with `@` and an int in hexadecimal behind it (`described`);
//!   `appended_units` is a text with units behind it.
//! - Which part of a text, of an array of chars, lies in it is asked by `has_part`, `has_bounds` and `has_room`; `chars`
//!   is the units of words, and `thread_name` the name of a thread without one.
//!
//! # Not proved
//!
//! - That memory was missing where it is said to be, and time.
//!
#![tactic(auto)]

mod answer;
mod builders;
mod composed;
mod descriptions;
mod parts;
mod questions;
mod regions;

pub use answer::StringAnswer;
pub use builders::{appended, appended_char, appended_int, appended_null};
pub use composed::{joined, part_of, text_of_char, text_of_int};
pub use descriptions::{appended_units, described};
pub use parts::{chars, has_bounds, has_part, has_room, thread_name};
pub use questions::{compared, hash_code, index_of, is_same_text, length, unit_at};
pub use regions::regions_match;
