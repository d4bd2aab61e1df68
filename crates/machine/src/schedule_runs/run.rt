//! The events of entries, one after another.

ghost use Rattle.std.specs.Prelude.{replicate};
ghost use Rattle.model.specs.Schedule.{events_of};
ghost use Rattle.machine.specs.schedule_runs.Done.{GoesThrough};

use crate::{Machine, Stopped};
use model::ScheduleEntry;
use schedule::Schedule;

/// Does the events of an entry.
fn run_entry(machine: &mut Machine, entry: ScheduleEntry) -> (u32, Stopped)
    ensures { GoesThrough result (replicate entry.repeat entry.event) machine.old machine.new }
{
    machine.repeat(entry.event, entry.repeat)
}

/// Does the events of a schedule, as far as they go. Returns how many were done, and why no more: `Most` where all
/// were.
pub fn run_schedule(machine: &mut Machine, schedule: &Schedule) -> (u64, Stopped)
    ensures { GoesThrough result (events_of schedule.now) machine.old machine.new }
{
    let mut done = 0u64;
    'entries: for entry in schedule.entries() {
        let (count, why) = run_entry(machine, *entry);
        done += u64::from(count);
        match why {
            Stopped::Most => {}
            why => return (done, why),
        }
    }
    (done, Stopped::Most)
}
