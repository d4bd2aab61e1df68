//! What is told in words, of files that are refused.

mod cause;
pub(crate) mod class;
mod cures;
pub(crate) mod file;
pub(crate) mod instruction;
pub(crate) mod java;
pub(crate) mod left_out;
mod line;
mod members;
mod missing;
mod named;
pub(crate) mod place;

pub use cause::{say_version, words_of};
pub use line::Line;
pub use missing::{lacking_above, lacking_in, lacking_in_method, lacking_name};
pub use named::{Named, named_at, say_instruction};
