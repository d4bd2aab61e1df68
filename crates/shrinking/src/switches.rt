//! How often a schedule goes from a thread to another one.

ghost use Rattle.std.specs.Prelude.{◌≡◌};
ghost use Rattle.model.specs.Schedule.{AreEntries, events_of};
ghost use Rattle.shrinking.specs.Switches.{switches, switches_behind};

use model::ScheduleEntry;
use schedule::Schedule;

/// How many of these entries are of another thread than the one before them, where this is the thread before the
/// first one.
fn switches_from(before: u16, entries: &[ScheduleEntry]) -> usize
    requires { AreEntries entries.now }
    ensures { result ≡ switches_behind before (events_of entries.now) }
{
    let mut count = 0usize;
    let mut thread = before;
    'entries: for entry in entries {
        if entry.event.thread != thread {
            count += 1;
        }
        thread = entry.event.thread;
    }
    count
}

/// How many events of a schedule are of another thread than the one before them.
pub fn switch_count(schedule: &Schedule) -> usize
    ensures { result ≡ switches (events_of schedule.now) }
{
    let entries = schedule.entries();
    match entries.first() {
        Some(first) => switches_from(first.event.thread, entries),
        None => 0,
    }
}
