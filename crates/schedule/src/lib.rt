//! Schedules: which thread does the next step, as lists of events that are kept as runs of equal ones.
//!
//! # Proved
//!
//! - `read_schedule`, of all three versions: what is answered stands for events that the bytes spell, and for what they
//!   say of the recording, if they are of version 2 or 3 (`found`), and the bytes are those of the entries as they are
//!   answered (`entries`); where they spell a list, it is answered, memory aside (`only`). A fault stands in the bytes,
//!   memory aside (`refused`, the definition `StandsIn`): `Magic` only where the first four bytes are there and aren't
//!   `JSCH`; `Version` only behind `JSCH`, where the fifth byte is there and is neither 1, 2 nor 3; `Trailing` only
//!   where bytes follow the last entry; `Truncated`, `Limits`, `Arguments` and `Repeat` only where reading from left to
//!   right ends so. It never answers `Files`.
//! - `write_schedule` spells its schedule, and with what it was recorded, where that is told (`written`, `spells`);
//!   where the entries are joined, so are those of the file (`joined`). `Schedule::count` is the number of events, and
//!   the other getters what they say; no bytes spell two lists of events (`bytes_spell_one_list`). The name of a fault
//!   is the definition's (`fault_name`).
//! - `Schedule::joined`: the same events, and no entry could stand for an event of the next one, too (`AreJoined`).
//!   Such entries are the fewest of their events (`joined_entries_are_fewest`).
//! - `checksum` is the first eight bytes of the file's SHA-256 (`checksum_of`, by `sha2`), and that of a library is of
//!   its files together (`library_checksum`); `Recording::of_files` is what `recording_of` says of class files and of
//!   what a library adds; and `Recording::difference` answers nothing exactly where they are as many, each as long and
//!   with its checksum, where these are told (`AreRecorded`).
//!
//! # Not proved
//!
//! - Shown by cases alone: that the reading of that definition is the one that the rules want, where bytes spell no
//!   list.
//!
//! # Wrong bodies
//!
//! - Planted by `rt plant`: 35 functions, 8 untried; 83 bodies judged, 2 not judged, 0 not run; proved 3: the real
//!   ones.
#![tactic(auto)]

mod fault;
mod file_checksums;
pub mod growing_text;
mod joining;
mod read;
mod reader;
pub mod recorded_events;
mod recording;
pub mod report;
mod runs;
pub mod schedule_text;
pub mod schedule_tree;
mod spelling;
mod write;

pub use fault::ScheduleFault;
pub use file_checksums::{Difference, checksum};
pub use joining::joined_entries_are_fewest;
pub use model::{Event, ScheduleEntry};
pub use read::read_schedule;
pub use recording::{Checksums, Recording};
pub use runs::Schedule;
pub use spelling::{bytes_spell_one_list, schedule_files};
pub use write::write_schedule;
