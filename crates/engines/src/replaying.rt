//! A replay, over any readers and writer.

ghost use Rattle.std.specs.Prelude.{◌≡◌, ◌+◌, ◌⊎◌, IfOk, IfErr, map, sum_by, vec_items};
ghost use Rattle.std.specs.Arc.{arc_value};
ghost use Rattle.model.specs.Schedule.{events_of};
ghost use Rattle.engines.specs.Engines.{CountsFailure};
ghost use Rattle.engines.specs.Opening.{IsAfterFiles, IsOfSchedule, IsOpened};
ghost use Rattle.engines.specs.Replays.{IsFaulty};
ghost use Rattle.engines.specs.Theorem.{IsReplayed, WritesReplay};

use crate::fault::Fault;
use crate::opening::{Opened, open};
use crate::place_ends::told;
use crate::recording::Conditions;
use crate::status::Status;
use model::{Sink, Source};
use program_runs::verified_programs::replay_shown;
use program_runs::workers::Gate;
use std::alloc::{AllocError, Global};

/// Runs the class files under the schedule, writes the report and answers its status.
///
/// The schedule is read as text where its first byte is a digit, `#`, or white space, and else as a schedule file. A
/// fault of it is answered before a class file is read, and one of the class files before anything runs. It may say
/// with which limits it was recorded, and over how many class files, how long each: where they are others, or another
/// limit is asked for, that is its fault, and it is answered once the class files are read and before one is decoded.
/// The run has its limits, and the gate is told of it. Where the schedule or a class file is refused, nothing is
/// written.
pub fn replay_engine<G: Gate, S: Source, W: Sink>(
    alloc: Global,
    gate: &G,
    schedule: &mut S,
    files: &mut [S],
    conditions: &Conditions,
    report: &mut W,
) -> Result<Status, Fault>
    // What the class files do under the schedule is written, and nothing else.
    ensures replayed { IfOk result (WritesReplay (S.remaining schedule.old) (map S.remaining files.old) conditions.now
        (W.contents report.old) (W.contents report.new)) }
    ensures faulty { IfErr result (IsFaulty (S.remaining schedule.old) (map S.remaining files.old) conditions.now
        (W.contents report.old) (W.contents report.new)) }
    ensures schedule_first { IfErr result (λ fault. IsOfSchedule fault → (files.new ≡ files.old)
        ⊎ IsAfterFiles (S.remaining schedule.old) (map S.remaining files.old) conditions.now fault) }
    ensures counted { CountsFailure result
        (S.failures schedule.old + sum_by S.failures files.old + W.failures report.old)
        (S.failures schedule.new + sum_by S.failures files.new + W.failures report.new) }
{
    let opened = open(alloc, schedule, files, conditions)?;
    let (text, status) = replayed(alloc, gate, opened)?;
    report.write_all(text.as_slice())?;
    Ok(status)
}

/// The text and the status of what the class files do under the schedule. Lets go what was opened.
fn replayed<G: Gate>(
    alloc: Global,
    gate: &G,
    opened: Opened,
) -> Result<(Vec<u8>, Status), AllocError>
    ensures { IfOk result (λ told. (bytes : _) (options : _)
        → IsOpened bytes (map vec_items opened.files.items) options (arc_value opened.verified)
        (events_of opened.schedule) opened.limits opened.gives_up
        → IsReplayed bytes (map vec_items opened.files.items) options told.0.items told.1) }
{
    replay_of(alloc, gate, &opened)
}

/// The text and the status of what the class files that were opened do under their schedule.
fn replay_of<G: Gate>(
    alloc: Global,
    gate: &G,
    opened: &Opened,
) -> Result<(Vec<u8>, Status), AllocError>
    ensures { IfOk result (λ told. (bytes : _) (options : _)
        → IsOpened bytes (map vec_items opened.now.files.items) options (arc_value opened.now.verified)
        (events_of opened.now.schedule) opened.now.limits opened.now.gives_up
        → IsReplayed bytes (map vec_items opened.now.files.items) options told.0.items told.1) }
{
    let (report, end) = replay_shown(
        alloc,
        &opened.verified,
        &opened.schedule,
        opened.limits,
        gate,
    )?;
    let (text, status) = told(alloc, &report, end, opened.gives_up)?;
    Ok((text, status))
}
