//! A schedule whose events are watched.

use crate::thread_explanations::watch::Watch;
use machine::{Machine, Stopped};
use machine_state::Answer;
use model::ScheduleEntry;
use schedule::Schedule;
use std::alloc::{AllocError, Global};

/// Does the events of an entry, one by one, and looks at the thread before and after each. Returns whether all were
/// done.
fn follow_watched(
    alloc: Global,
    machine: &mut Machine,
    watch: &mut Watch,
    entry: ScheduleEntry,
) -> Result<bool, AllocError> {
    let thread = entry.event.thread;
    for _ in 0..entry.repeat {
        watch.before(machine.shared(), thread);
        match machine.step(entry.event) {
            Ok(Answer::Done) => watch.after(alloc, machine.shared(), thread)?,
            Ok(Answer::NotEnabled) | Err(_) => return Ok(false),
        }
    }
    Ok(true)
}

/// Does the events of an entry. Returns whether all were done.
fn follow_entry(
    alloc: Global,
    machine: &mut Machine,
    watches: &mut [Watch],
    entry: ScheduleEntry,
) -> Result<bool, AllocError> {
    if let Some(watch) = watches.get_mut(usize::from(entry.event.thread)) {
        if watch.is_seeking() {
            return follow_watched(alloc, machine, watch, entry);
        }
    }
    let (_, why) = machine.repeat(entry.event, entry.repeat);
    Ok(matches!(why, Stopped::Most))
}

/// Does the events of a schedule, as far as they go, and looks at those of watched threads.
pub(crate) fn follow(
    alloc: Global,
    machine: &mut Machine,
    schedule: &Schedule,
    watches: &mut [Watch],
) -> Result<(), AllocError> {
    for entry in schedule.entries() {
        if !follow_entry(alloc, machine, watches, *entry)? {
            return Ok(());
        }
    }
    Ok(())
}
