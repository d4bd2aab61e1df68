//! Schedules that are tried in the place of another one.

ghost use Rattle.std.specs.Prelude.{◌≡◌, ◌≤◌, ◌<◌, IfOk, IfSome, length};
ghost use Rattle.model.specs.Schedule.{events_of};
ghost use Rattle.std.specs.List.{remove_range};
ghost use Rattle.shrinking.specs.Entries.{IsGathered, IsMovedBehind};

use schedule::Schedule;
use std::alloc::{AllocError, Global};

/// The schedule without the entries from one place up to another. The only error is a want of memory.
pub(crate) fn without(
    alloc: Global,
    schedule: &Schedule,
    from: usize,
    to: usize,
) -> Result<Schedule, AllocError>
    requires from { from ≤ to }
    requires to { to ≤ length schedule.now }
    ensures { IfOk result (λ left. events_of left ≡ events_of (remove_range schedule.now from to)) }
{
    let entries = schedule.entries();
    let mut left = Vec::new(alloc);
    left.extend_from_slice(&entries[..from])?;
    left.extend_from_slice(&entries[to..])?;
    Schedule::of_entries(left).joined(alloc)
}

/// The place of the last entry before another one that is of the same thread, if there is one.
fn place_before(schedule: &Schedule, moved: usize) -> Option<usize>
    requires { moved < length schedule.now }
    ensures { IfSome result (λ place. place < moved) }
{
    let thread = schedule.entry(moved).event.thread;
    'places: for place in (0..moved).rev() {
        if schedule.entry(place).event.thread == thread {
            return Some(place);
        }
    }
    None
}

/// The schedule with the entry of a place behind that of another one before it. The only error is a want of memory.
fn moved_behind(
    alloc: Global,
    schedule: &Schedule,
    moved: usize,
    to: usize,
) -> Result<Schedule, AllocError>
    requires moved { moved < length schedule.now }
    requires to { to < moved }
    ensures { IfOk result (λ other. IsMovedBehind moved to schedule.now (events_of other)) }
{
    let mut entries = Vec::new(alloc);
    entries.extend_from_slice(schedule.entries())?;
    let entry = entries.remove(moved);
    entries.insert(to + 1, entry)?;
    Schedule::of_entries(entries).joined(alloc)
}

/// The schedule with the entry of a place behind the last one before it that is of the same thread; none where there
/// is no such. The only error is a want of memory.
pub(crate) fn gathered(
    alloc: Global,
    schedule: &Schedule,
    moved: usize,
) -> Result<Option<Schedule>, AllocError>
    requires { moved < length schedule.now }
    ensures { IfOk result (λ found. IfSome found (λ other. IsGathered moved schedule.now (events_of other))) }
{
    match place_before(schedule, moved) {
        Some(to) => Ok(Some(moved_behind(alloc, schedule, moved, to)?)),
        None => Ok(None),
    }
}
