//! A read or a write by where it stands, as one number: what a detector of races is told in the place of the number of
//! an event, and tells of the earlier one of two accesses that race.
//!
//! # Proved
//!
//! - `label_of`, `access_of`: the number of an access at a place in code, and the access by its number.
//!
//! # Wrong bodies
//!
//! - `labels-writes-are-even`: the number of a write is told as that of a read; refused by `access_of`.

ghost use Rattle.std.specs.Prelude.{◌≡◌};
ghost use Rattle.run_races.specs.labels.Labels.{access_of, label_of};

use crate::told_races::RaceAccess;

/// The number of a read or a write at an offset of the method of a number.
pub fn label_of(method: u32, offset: u16, is_write: bool) -> u64
    ensures { result ≡ label_of method offset is_write }
{
    let place = u64::from(method) * 65536 + u64::from(offset);
    place * 2 + u64::from(is_write)
}

/// The access of a thread of which this is the number.
pub fn access_of(thread: usize, label: u64) -> RaceAccess
    ensures { result ≡ access_of thread label }
{
    let place = label / 2;
    RaceAccess {
        thread,
        is_write: label % 2 == 1,
        method: place / 65536,
        offset: (place % 65536) as u16,
    }
}
