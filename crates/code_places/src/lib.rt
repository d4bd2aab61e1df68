//! Which offsets of which methods a place of a schedule stands for.
//!
//! # Proved
//!
//! - `points_of` (`all_points`), memory aside, for all linked class files: it answers, by the numbers of the methods,
//!   and for each in the order of the class file, the offsets of the methods of the place's class and name, and of its
//!   descriptor where that is told (`names`). Of a line these are the offsets at which an entry of a LineNumberTable
//!   begins it (JVMS 4.7.12); else it is the offset itself; and an instruction begins there (4.9.1).
//! - `missing` (`Misses`), memory aside: nothing only where the place has a point; `Class` only where no class has the
//!   name, `Method` only where no such method has code, and `Line` or `Offset` only where there is no point.
//!
//! # Not proved
//!
//! - Of `line_begun`, which looks for a line to write, nothing is promised but that it is safe and returns.
#![tactic(auto)]

mod lines;
mod points;
mod there;

pub use lines::line_begun;
pub use points::{Point, method_of, points_of};
pub use there::{PlaceFault, missing};
