//! A replay that is shown while it goes on.

ghost use Rattle.std.specs.Prelude.{IfOk, replicate};
ghost use Rattle.model.specs.Schedule.{events_of};
ghost use Rattle.machine.specs.machine_replay.Replays.{IsReplay};
ghost use Rattle.machine.specs.schedule_runs.Done.{GoesThrough};

use crate::verified_programs::program::open_machine;
use crate::workers::Gate;
use machine::machine_replay::report_after;
use machine::{Machine, Stopped};
use model::{End, Limits, Report, ScheduleEntry};
use run_laws::soundness::no_event_is_wrong;
use run_laws::word_reports::reports_of_words;
use schedule::Schedule;
use std::alloc::{AllocError, Global};
use verifier::Verified;

/// Tells a gate how many events are done, and shows it what is printed, where it wants to see that.
fn show<G: Gate>(machine: &Machine, done: u64, gate: &G) {
    gate.turn_ends(done.min(u64::from(u32::MAX)) as u32);
    if gate.is_watching() {
        gate.watch_output(machine.shared().printed.as_slice());
    }
}

/// Does the events of an entry.
fn run_entry(machine: &mut Machine, entry: ScheduleEntry) -> (u32, Stopped)
    ensures { GoesThrough result (replicate entry.repeat entry.event) machine.old machine.new }
{
    machine.repeat(entry.event, entry.repeat)
}

/// Does the events of a schedule, as far as they go, and shows a gate behind each entry what is printed. Returns how
/// many were done, and why no more: `Most` where all were.
fn run_shown<G: Gate>(machine: &mut Machine, schedule: &Schedule, gate: &G) -> (u64, Stopped)
    ensures { GoesThrough result (events_of schedule.now) machine.old machine.new }
{
    let mut done = 0u64;
    'entries: for entry in schedule.entries() {
        let (count, why) = run_entry(machine, *entry);
        done += u64::from(count);
        show(machine, done, gate);
        match why {
            Stopped::Most => {}
            why => return (done, why),
        }
    }
    (done, Stopped::Most)
}

/// Does what `replay` does, and shows a gate behind each entry of the schedule what is printed. The gate can't stop it.
pub fn replay_shown<G: Gate>(
    alloc: Global,
    verified: &Verified,
    schedule: &Schedule,
    limits: Limits,
    gate: &G,
) -> Result<(Report, End), AllocError>
    ensures { IfOk result (λ r. IsReplay verified.now (events_of schedule.now) limits r.0 r.1) }
{
    reports_of_words();
    no_event_is_wrong();
    let mut machine = open_machine(alloc, verified, limits)?;
    let (done, why) = run_shown(&mut machine, schedule, gate);
    report_after(alloc, &machine, verified.linked().set(), done, why)
}
