//! The data races of a run, over any readers and writer.

ghost use Rattle.std.specs.Prelude.{◌≡◌, ◌+◌, ◌⊎◌, IfOk, IfErr, map, sum_by, vec_items};
ghost use Rattle.std.specs.Arc.{arc_value};
ghost use Rattle.model.specs.Schedule.{events_of};
ghost use Rattle.engines.specs.Engines.{CountsFailure};
ghost use Rattle.engines.specs.Opening.{IsAfterFiles, IsOfSchedule, IsOpened};
ghost use Rattle.engines.specs.Races.{IsUnraced};
ghost use Rattle.engines.specs.Theorem.{IsRaced, WritesRaces, raced_status};

use crate::fault::Fault;
use crate::opening::{Opened, open};
use crate::place_ends::told;
use crate::recording::Conditions;
use crate::status::Status;
use model::{Sink, Source};
use race_runs::raced_runs::races;
use std::alloc::{AllocError, Global};

/// Runs the class files under the schedule, and writes a line for each data race of the run (JLS 17.4.5), and then the
/// report. The status is 3 where the schedule doesn't fit, else 1 where there is a race, else that of the report.
///
/// Each race that is told is one of the run, and its line spells it; each access that races with an earlier one has one
/// told. What comes before the run, and its faults, are those of `replay_engine`.
pub fn races_engine<S: Source, W: Sink>(
    alloc: Global,
    schedule: &mut S,
    files: &mut [S],
    conditions: &Conditions,
    output: &mut W,
) -> Result<Status, Fault>
    // The lines and the report of what the class files do under the schedule are written, and nothing else.
    ensures raced { IfOk result (WritesRaces (S.remaining schedule.old) (map S.remaining files.old) conditions.now
        (W.contents output.old) (W.contents output.new)) }
    ensures faulty { IfErr result (IsUnraced (S.remaining schedule.old) (map S.remaining files.old) conditions.now
        (W.contents output.old) (W.contents output.new)) }
    ensures schedule_first { IfErr result (λ fault. IsOfSchedule fault → (files.new ≡ files.old)
        ⊎ IsAfterFiles (S.remaining schedule.old) (map S.remaining files.old) conditions.now fault) }
    ensures counted { CountsFailure result
        (S.failures schedule.old + sum_by S.failures files.old + W.failures output.old)
        (S.failures schedule.new + sum_by S.failures files.new + W.failures output.new) }
{
    let opened = open(alloc, schedule, files, conditions)?;
    let (text, status) = raced(alloc, opened)?;
    output.write_all(text.as_slice())?;
    Ok(status)
}

/// The text and the status of the races of what was opened. Lets go what was opened.
fn raced(alloc: Global, opened: Opened) -> Result<(Vec<u8>, Status), AllocError>
    ensures { IfOk result (λ told. (bytes : _) (options : _)
        → IsOpened bytes (map vec_items opened.files.items) options (arc_value opened.verified)
        (events_of opened.schedule) opened.limits opened.gives_up
        → IsRaced bytes (map vec_items opened.files.items) options told.0.items told.1) }
{
    races_of(alloc, &opened)
}

/// The text and the status of the races of the class files that were opened, under their schedule.
fn races_of(alloc: Global, opened: &Opened) -> Result<(Vec<u8>, Status), AllocError>
    ensures { IfOk result (λ told. (bytes : _) (options : _)
        → IsOpened bytes (map vec_items opened.now.files.items) options (arc_value opened.now.verified)
        (events_of opened.now.schedule) opened.now.limits opened.now.gives_up
        → IsRaced bytes (map vec_items opened.now.files.items) options told.0.items told.1) }
{
    let run = races(alloc, &opened.verified, &opened.schedule, opened.limits)?;
    let (report, status) = told(alloc, &run.report, run.end, opened.gives_up)?;
    let mut text = Vec::new(alloc);
    text.extend_from_slice(run.lines.as_slice())?;
    text.extend_from_slice(report.as_slice())?;
    Ok((text, raced_status(status, run.has_race)))
}

/// The status of a run that has a race, or hasn't, by that of its report.
pub(crate) fn raced_status(status: Status, has_race: bool) -> Status
    ensures { result ≡ raced_status status has_race }
{
    match status {
        Status::Stopped => Status::Stopped,
        _ => { if has_race { Status::Threw } else { status } }
    }
}
