//! Advice on files that are refused: all that is wrong with each of them, in words of Java, and what to write
//! instead. It is told by a pass of its own, which goes on where linking stops. And what it is told with: lines,
//! names, and what an instruction names.
//!
//! # Proved
//!
//! - `advice`, memory aside, of any files (`IsAdvice`): where all of them are class files of version 49.0, and no two
//!   declare one class, something is told of each place of each file that is outside of the profile, or names what is
//!   not found (`TellsAll`, `is_wrong_in`): what stands above its class, a field, a method's declaration, an
//!   instruction or an exception entry. Of a code that doesn't decode to its end these are the instructions up to that
//!   end, and the end. All that is told stands in a line (`AreSaid`). The text has nothing but those lines, indented,
//!   without control characters, behind one that says that it is advice; nothing where nothing is told (`text_of`).
//!
//! # Not proved
//!
//! - Nothing is proved of the words, nor that only such places are told; nor of files of another version, or with
//!   constants of a newer kind, which are mended and then told likewise. Shown by cases: what is told of the 107
//!   sources of `constructs/`, each of which says it in its first comment.
#![tactic(auto)]

mod advising;
mod classes;
mod distinct;
mod facts;
mod file;
mod given;
mod mending;
mod reading;
mod site;
mod text;
mod told;
pub mod words;

pub use advising::advice;
pub use given::GivenFile;
pub use told::{Told, ToldPlace};
