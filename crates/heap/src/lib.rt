//! The objects of a run, with their fields or elements and their monitors. Nothing is ever freed.
//!
//! The words of all objects lie in one list of cells; a table says for each object what it is and where its words
//! begin, and the monitors keep one lock word for each. Callers see a list of objects, each with the list of its
//! words.
//!
//! # Proved
//!
//! What is shown is a list of objects, the plain monitors, and which locks are fat. An object is an instance of a
//! class, or an array of a kind, by numbers of the caller, and the list of its words.
//!
//! - `alloc_object`, `alloc_ints`, `alloc_refs` and `alloc_narrow`, by cases on the answer (`Allocates`):
//!   - done: the new object stands last, its words are 0, its monitor has no owner; the reference r is its place in the
//!     list, and r + 1 is a word. No limit stood. The count of cells has grown by as many as the caller says that count
//!     of the fields of an instance, and by the length of an array;
//!   - refused: `Objects` exactly where as many objects as may be were allocated since the opening, `Cells` exactly
//!     where more cells would be counted than may be and the other limit doesn't stand, `Memory` only where none
//!     stands. Nothing changed.
//! - `add_opening`: the same for an object of the opening state, for which no limit stands; all objects before it
//!   belong to the opening state too, so no cell is counted yet, and for want of memory nothing changed (`ok`, `err`).
//!   The caller keeps: there are fewer than 294,967,295 objects.
//! - `class_of`, `length`, `get_field`, `get_element` and `len` are what the list says; `put_field` and `put_element`
//!   write that word and leave all else. A word that isn't there is read as 0 and isn't written. `put_element` stores
//!   what an element of the array has room for (`kept`: a boolean its lowest bit, a byte and a short their low bits
//!   with sign, a char without).
//! - The calls of monitors are handed on with their contract, and the rest of the heap stays (`HandsOn`); so are the
//!   getters.
//! - Of states that are kept: `words` is the list of an object's words. `add_words` and `add_opening_words` put an
//!   object with given words last, with a monitor that has no owner; the first says of a refusal what `Allocates` says,
//!   and the other doesn't change anything on an error. `set_counted` changes the count of cells alone; the caller
//!   keeps it within the limit. `copied` is the other heap, whatever this one was.
//! - `same_until`: each object from the first of a range up to the answer is the same in both heaps, it and its
//!   monitor. The answer may come early: the search stops at an inflated lock.
//! - `are_same_words`: two lists that are found to be the same are the same.
//! - An entry of the table has 16 bytes. Beside it an object has a lock word of 4 bytes, and each cell 4 bytes.
//!
//! # Not proved
//!
//! - That what is the same in two heaps is found to be so.
//! - Shown by cases alone: that calls succeed where memory is there.
//!
//! # Wrong bodies
//!
//! - Planted by `rt plant` in what stands in no module: 37 functions, 3 untried; 113 bodies judged, 7 not judged, 2 not
//!   run; none proves.
#![tactic(auto)]

mod heap;
pub mod java_threads;
mod kind;
mod layout;
pub mod lock_word;
pub mod monitor;
pub mod monitor_events;
mod refusal;

pub use heap::{Heap, MOST_OPENING};
pub use kind::{NarrowKind, ObjectKind};
pub use layout::are_same_words;
pub use refusal::AllocRefusal;
