//! Texts of schedules with places.
//!
//! A word `1@Bank.transfer:25` lets thread 1 go on until its next bytecode is at an offset at which line 25 of that
//! method begins, and `1@Bank.transfer+25` until it is at that offset. All other words are entries, as in a text
//! without places. What places mean in a run is a matter of the crate `place_runs`.
//!
//! # Proved
//!
//! - `read_deeds`: where it answers something, the words of the text spell that, one by one (`found`, `SpellDeeds`): an
//!   entry as a text of its own spells it (`SpellsSchedule` of `schedule`), and a place behind a thread that is spelled
//!   so, and an `@`, byte by byte (`place_words`). It answers something, or a fault of a word, only where some word of
//!   the text has an `@`, and nothing only where none has (`marked`, `refused`). The words are those of `text_words`:
//!   comments are none of them. Each entry fits a schedule (`Fits`, kept by `PlacedDeed`).
//! - `is_places_word` (`IsPlacesWord`): it is true only of a word whose words spell entries and places, of which one has
//!   an `@`, and in which no `#` stands.
//! - `place_text` and `print_deeds`, memory aside: the text is that of a place, or has the word of each in a line
//!   (`place_words`, `deed_lines`).
//!
//! # Not proved
//!
//! - Shown by cases alone: that a text which is spelled so is read, which fault is answered, and its line.
#![tactic(auto)]

mod command_word;
mod place;
mod position;
mod read;
mod words;
mod write;

pub use command_word::is_places_word;
pub use place::{Deed, Place, PlacedDeed, Position};
pub use read::read_deeds;
pub use write::{place_text, print_deeds};
