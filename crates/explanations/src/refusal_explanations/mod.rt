//! Why files are refused, told to a person: a line that stands behind the line of a refusal.
//!
//! # Not proved
//!
//! - Nothing is proved of what it says but that it is safe and returns. Shown by cases: a line of each kind.

mod class_files;
mod malformed;
mod method;
mod outside;
mod schedule_file;
mod unresolved;

pub use advice::GivenFile;
pub use class_files::explain;
pub use schedule_file::{explain_difference, explain_schedule, explain_text};
