//! A table of lists of words in which each list is written once, and has a number that stands for it for ever.
//!
//! # Proved
//!
//! - Of a table as the list of its lists: `new` is empty; `push` adds a list behind the others, and its number is how
//!   many there were; `find` and `write` answer only numbers of lists with these very words; `get` reads the list of a
//!   number. What was written stays. For want of memory nothing changes.
//!
//! # Not proved
//!
//! - That a list which is there is found: nothing rests on it, and a list that is not found is written twice. So
//!   nothing is claimed of hashes, nor of the places that they pick.
#![tactic(auto)]

mod hash;
mod places;
mod table;

pub use table::WordTable;
