//! Replaying a schedule over a linked program.

ghost use Rattle.std.specs.Prelude.{◌≡◌, IfOk};
ghost use Rattle.std.specs.Arc.{arc_value};
ghost use Rattle.model.specs.Schedule.{events_of};
ghost use Rattle.machine.specs.Machines.{IsProgramOf};
ghost use Rattle.machine.specs.machine_replay.Replays.{IsReplay};
ghost use Rattle.machine.specs.machine_replay.Shown.{Tells, end_of};

use crate::machine_reports::{is_quiet, report_of};
use crate::schedule_runs::run_schedule;
use crate::{Machine, Stopped};
use hierarchy::ClassSet;
use linked_code::LinkedProgram;
use machine_state::shown_runs::runs_are_opened;
use model::{End, Limits, Report};
use run_laws::soundness::no_event_is_wrong;
use run_laws::word_reports::reports_of_words;
use schedule::Schedule;
use std::alloc::{AllocError, Global};
use std::sync::Arc;

/// Why no more events were done than so many: where all of them were, by whether any thread may go on.
fn end_of(why: Stopped, done: u64, quiet: bool) -> End
    ensures { result ≡ end_of why done quiet }
{
    match why {
        Stopped::Most if quiet => End::Quiet,
        Stopped::Most => End::Schedule,
        Stopped::NotEnabled => End::NotEnabled(done),
        Stopped::Refused(refusal) => End::Refused(done, refusal.cause()),
    }
}

/// The report of what a machine shows after so many events, and why no more were done. The classes are those of its
/// files. The only error is a want of memory.
pub fn report_after(
    alloc: Global,
    machine: &Machine,
    classes: &ClassSet,
    done: u64,
    why: Stopped,
) -> Result<(Report, End), AllocError>
    ensures { IfOk result (λ r. Tells classes.now machine.now done why r.0 r.1) }
{
    let frames = machine.limits().frames as usize;
    let report = report_of(
        alloc,
        classes,
        machine.program(),
        machine.shared(),
        frames,
        done,
    )?;
    let end = end_of(why, done, is_quiet(&report.threads));
    Ok((report, end))
}

/// Does the events of a schedule, as far as they go, under the limits of the run (JVMS 2.5, 2.6, 5.5, chapter 6; JLS
/// 17). The program is that of the classes, which are accepted. The report is of the events that were done, and the
/// end says why no more were. The only error is a want of memory for the machine before any event, or for the report;
/// where an event wants memory that isn't there, the end says so.
pub fn replay(
    alloc: Global,
    classes: &ClassSet,
    program: Arc<LinkedProgram>,
    schedule: &Schedule,
    limits: Limits,
) -> Result<(Report, End), AllocError>
    requires { IsProgramOf classes.now (arc_value program) }
    ensures { IfOk result (λ r. IsReplay classes.now (events_of schedule.now) limits r.0 r.1) }
{
    runs_are_opened();
    reports_of_words();
    no_event_is_wrong();
    let mut machine = Machine::open(alloc, program, limits)?;
    let (done, why) = run_schedule(&mut machine, schedule);
    report_after(alloc, &machine, classes, done, why)
}
