//! Entries that are joined with their neighbours.

ghost use Rattle.std.specs.Prelude.{◌≡◌, ◌+◌, ◌<◌, ◌≤◌, ◌++◌, List, IfOk, length, replicate, vec_len, vec_capacity};
ghost use Rattle.model.specs.Schedule.{AreEntries, EntryFits, events_of};
ghost use Rattle.model.specs.declared.event.ScheduleEntry.{ScheduleEntry as Entry};
ghost use Rattle.std.specs.List.{AllByRecursion};
ghost use Rattle.schedule.specs.Joined.{AreJoined, AreRuns, HasRoom, IsApart};

use crate::runs::Schedule;
use model::{Event, ScheduleEntry};
use std::alloc::{AllocError, Global};

/// For how many more events like this one the last entry may stand, too: for none where that is of another event, or
/// of one with a pick.
fn room(entries: &[ScheduleEntry], event: Event) -> u32
    ensures some { 0 < result → HasRoom entries.now event result }
    ensures none { result ≡ 0 → IsApart entries.now event }
{
    let Some(last) = entries.last() else {
        return 0;
    };
    if last.event != event || event.pick != 0 {
        return 0;
    }
    u32::MAX - last.repeat
}

/// Makes the last entry stand for so many more events, as far as it may, and tells for how many it may not.
fn lengthen(entries: &mut Vec<ScheduleEntry>, event: Event, count: u32) -> u32
    requires { AreRuns entries.old.items }
    ensures events { events_of entries.new.items ++ replicate result event
        ≡ events_of entries.old.items ++ replicate count event }
    ensures runs { AreRuns entries.new.items }
    ensures apart { 0 < result → IsApart entries.new.items event }
    ensures few { result ≤ count }
    ensures len { vec_len entries.new ≡ vec_len entries.old }
    ensures capacity { vec_capacity entries.new ≡ vec_capacity entries.old }
{
    let taken = room(entries.as_slice(), event).min(count);
    if taken == 0 {
        return count;
    }
    let last = entries.len() - 1;
    let repeat = entries[last].repeat + taken;
    entries[last] = ScheduleEntry { event, repeat };
    count - taken
}

/// Adds so many equal events at the end: to the last entry as far as that may stand for them, too, and else as an
/// entry more.
pub(crate) fn append_events(entries: &mut Vec<ScheduleEntry>, event: Event, count: u32)
    requires room { vec_len entries.old < vec_capacity entries.old }
    requires alone { 1 < count → event.pick ≡ 0 }
    requires runs { AreRuns entries.old.items }
    ensures events { events_of entries.new.items ≡ events_of entries.old.items ++ replicate count event }
    ensures runs { AreRuns entries.new.items }
    ensures few { vec_len entries.new ≤ vec_len entries.old + 1 }
{
    let left = lengthen(entries, event, count);
    if left > 0 {
        entries.push_reserved(ScheduleEntry {
            event,
            repeat: left,
        });
    }
}

/// The same events as so many entries that are joined.
fn joined_entries(
    alloc: Global,
    entries: &[ScheduleEntry],
) -> Result<Vec<ScheduleEntry>, AllocError>
    requires { AreEntries entries.now }
    ensures events { IfOk result (λ v. events_of v.items ≡ events_of entries.now) }
    ensures runs { IfOk result (λ v. AreRuns v.items) }
    ensures few { IfOk result (λ v. vec_len v ≤ length entries.now) }
{
    let mut joined = Vec::new(alloc);
    'entries: for entry in entries {
        joined.reserve(1)?;
        append_events(&mut joined, entry.event, entry.repeat);
    }
    Ok(joined)
}

/// Entries that are joined are the fewest that stand for their events.
pub fn joined_entries_are_fewest()
    ensures { (joined entries : List Entry) → AreRuns joined → AllByRecursion EntryFits entries
        → events_of joined ≡ events_of entries
        → length joined ≤ length entries }
{}

impl Schedule {
    /// The schedule of the same events in as few entries as they can have. The only error is a want of memory.
    pub fn joined(&self, alloc: Global) -> Result<Schedule, AllocError>
        ensures same { IfOk result (λ s. events_of s ≡ events_of self.now) }
        ensures joined { IfOk result AreJoined }
    {
        Ok(Schedule::of_entries(joined_entries(alloc, self.entries())?))
    }
}
