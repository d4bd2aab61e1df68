//! What runs that have ended leave to be seen: which of it is wanted, and a list of it.
//!
//! # Proved
//!
//! - `Wanted::is`, memory aside: whether an outcome is the one that is wanted (`IsWanted`): a thread waits for ever,
//!   one ended with an exception, what was printed is a text, or is another one.
//! - `printed_lines`, memory aside: it makes of ints the text that a run prints of them (`printed_text`).
//! - `Outcomes`: its outcomes are in an order, each once (`AreInOrder`); `add` lists one more and keeps the others
//!   (`IsAdded`).
//! - Outcomes are in the order of the texts that were printed, and those are in that of their lines (`text_cmp`): lines
//!   that are ints come first, by their numbers, and others by their units. Texts in which each line is an int are in
//!   the order of the ints (`AreInOrderOfInts`, of `texts_of_ints_are_in_order`).
//! - `Outcome::is_same`: whether two outcomes are equal (`equal`), which is where neither comes first (`is_same`).
//!
//! # Wrong bodies
//!
//! - `run_outcomes-words-come-first`: a line that is no int comes before those that are; refused by `below_positive`.
//! - `run_outcomes-numbers-by-their-units`: lines are compared by their units alone; refused by `line_cmp`.
//! - `run_outcomes-last-line-feed-is-passed-over`: a text is the same without its last line feed; refused by
//!   `text_cmp`.

mod lines;
mod order;
mod outcomes;
mod printed;
mod same;
mod wanted;

pub use lines::texts_of_ints_are_in_order;
pub use outcomes::{Outcome, Outcomes};
pub use printed::printed_lines;
pub use wanted::Wanted;
pub(crate) use wanted::any_is_stuck;
