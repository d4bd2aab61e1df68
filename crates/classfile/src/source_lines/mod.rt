//! Where code comes from, as class files tell it: the name of a source file, and the numbers of its lines (JVMS
//! 4.7.10, 4.7.12).
//!
//! # Not proved
//!
//! - Nothing is proved of what it finds but that it is safe and returns. Shown by a case: a class file that tells its
//!   source and its lines.

mod bytes;
mod lines;
mod source;
mod table;

pub use lines::line_at;
pub use source::source_file;
pub use table::LineTable;
