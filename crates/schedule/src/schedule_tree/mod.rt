//! Schedules as a tree, each of which goes on from another one by one entry.
//!
//! # Proved
//!
//! - `ScheduleTree` is schedules by their numbers: number 0 has no entries, and each other one goes on from one with a
//!   lower number by one entry. `push` puts one behind the others, and for want of memory changes nothing; `schedule`
//!   hands out for each number the schedule that was put there.

mod tree;

pub use tree::ScheduleTree;
