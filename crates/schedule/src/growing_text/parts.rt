//! What is written at a time.

ghost use Rattle.std.specs.Prelude.{◌≡◌, ◌≤◌, ◌<◌, ◌-◌, ◌^◌, IfOk, drop, length};
ghost use Rattle.model.specs.Schedule.{events_of};
ghost use Rattle.schedule.specs.Joined.{AreRuns};
ghost use Rattle.schedule.specs.growing_text.Growing.{GrowsBy};
ghost use Rattle.schedule.specs.growing_text.Seams.{IsSeam};

use crate::recorded_events::RecordedEvents;
use crate::schedule_text::push_entries;
use model::ScheduleEntry;
use std::alloc::{AllocError, Global};

/// Where the last so many events begin: they are those of the entries from a place on, and so many of the entry before.
fn seam(entries: &[ScheduleEntry], last: u32) -> (usize, u32)
    requires { last ≤ length (events_of entries.now) }
    ensures { IsSeam entries.now last result.0 result.1 }
{
    let mut at = entries.len();
    let mut left = last;
    'back: while at > 0 && entries[at - 1].repeat < left {
        at -= 1;
        left -= entries[at].repeat;
    }
    (at, left)
}

/// Entries of the last so many events. The only error is a want of memory.
fn last_entries(
    alloc: Global,
    entries: &[ScheduleEntry],
    last: u32,
) -> Result<Vec<ScheduleEntry>, AllocError>
    requires runs { AreRuns entries.now }
    requires few { length (events_of entries.now) < 2 ^ 32 }
    requires within { last ≤ length (events_of entries.now) }
    ensures events { IfOk result (λ v.
        events_of v.items ≡ drop (length (events_of entries.now) - last) (events_of entries.now)) }
    ensures runs { IfOk result (λ v. AreRuns v.items) }
{
    let (at, left) = seam(entries, last);
    let mut part = Vec::new(alloc);
    if left > 0 {
        let event = entries[at - 1].event;
        part.push(ScheduleEntry {
            event,
            repeat: left,
        })?;
    }
    part.extend_from_slice(&entries[at..])?;
    Ok(part)
}

impl RecordedEvents {
    /// What stands behind the text of the first so many events in that of all. The only error is a want of memory.
    pub fn text_behind(&self, alloc: Global, count: u32) -> Result<Vec<u8>, AllocError>
        ensures { IfOk result (λ more. GrowsBy count self.now.events more.items) }
    {
        let last = self.total.saturating_sub(count);
        let part = last_entries(alloc, self.entries.as_slice(), last)?;
        let mut text = Vec::new(alloc);
        push_entries(&mut text, part.as_slice())?;
        Ok(text)
    }
}
