//! Why class files are refused: the words in which linking, verification and what runs class files say no.
//!
//! # Proved
//!
//! - What `write_line` writes, where no write fails, is the line of the definition (`refusal_line`), in which a method
//!   stands byte by byte; the words of a kind are the definition's (`kind_words`); and each constructor makes the
//!   refusal that it says. What was written before a failure no clause says. Want of memory becomes `OutOfMemory` with
//!   no file, method, offset or cause (`memory_wanted`).
//!
//! # Not proved
//!
//! - Shown by cases too: a line of each form, and names that are no UTF-8.

mod why;

pub use constant_pool::reading::Cause;
pub use why::{Refusal, RefusalKind};
