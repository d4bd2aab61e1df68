//! A list of events, as runs of equal ones.

ghost use Rattle.std.specs.Prelude.{◌≡◌, ◌<◌, ◌^◌, List, length, Some, slice_get};
ghost use Rattle.model.specs.Schedule.{EntryFits, AreEntries, events_of};

use model::ScheduleEntry;
use std::marker::Model;

/// A list of events, kept as at most 4,294,967,295 entries that each stand for so many equal events. It is never
/// unrolled.
#[derive(Drop)]
pub struct Schedule {
    entries: Vec<ScheduleEntry>,
}

impl Model for Schedule {
    ghost use Rattle.std.specs.Prelude.{List};
    ghost use Rattle.model.specs.Schedule.{AreEntries};
    ghost use Rattle.model.specs.declared.event.ScheduleEntry.{ScheduleEntry};

    ghost Value = { List ScheduleEntry };

    ghost view = { λ s. s.entries.items };

    ghost invariant = { λ s. AreEntries s.entries.items };
}

impl Schedule {
    /// The schedule of these entries.
    pub fn of_entries(entries: Vec<ScheduleEntry>) -> Schedule
        requires { AreEntries entries.items }
        ensures { result ≡ entries.items }
    {
        Schedule { entries }
    }

    /// How many entries it has.
    pub fn len(&self) -> usize
        ensures count { result ≡ length self.now }
        ensures below { result < 2 ^ 32 }
    {
        self.entries.len()
    }

    /// The entries in order.
    pub fn entries(&self) -> &[ScheduleEntry]
        ensures are { result.now ≡ self.now }
        ensures fit { AreEntries result.now }
    {
        self.entries.as_slice()
    }

    /// The entry at a place, counted from 0.
    pub fn entry(&self, place: usize) -> ScheduleEntry
        requires { place < length self.now }
        ensures is { slice_get self.now place ≡ Some result }
        ensures fits { EntryFits result }
    {
        self.entries[place]
    }

    /// How many events it has.
    pub fn count(&self) -> u64
        ensures { result ≡ length (events_of self.now) }
    {
        let mut count = 0u64;
        'entries: for entry in self.entries() {
            count += u64::from(entry.repeat);
        }
        count
    }
}
