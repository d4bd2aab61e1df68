//! A run told event by event, over any readers and writer.

ghost use Rattle.std.specs.Prelude.{◌≡◌, ◌+◌, ◌⊎◌, IfOk, IfErr, OnErr, map, sum_by, vec_items};
ghost use Rattle.std.specs.Io.KnownBytes.{Appends};
ghost use Rattle.model.specs.Devices.{Counts};
ghost use Rattle.std.specs.Arc.{arc_value};
ghost use Rattle.model.specs.Schedule.{events_of};
ghost use Rattle.engines.specs.Engines.{CountsFailure};
ghost use Rattle.engines.specs.Opening.{IsAfterFiles, IsOfSchedule, IsOpened};
ghost use Rattle.engines.specs.Traces.{IsTraced, IsUntraced, Traces, TracesFront};

use crate::fault::Fault;
use crate::opening::{Opened, open};
use crate::place_ends::told;
use crate::recording::Conditions;
use crate::status::Status;
use model::{DeviceFault, Sink, Source};
use program_runs::traced_runs::{Window, trace};
use std::alloc::Global;

/// Runs the class files under the schedule, writes a line for each event that is to be told, in a summary one for a
/// run of local ones, and then the report. Answers the status of the report.
///
/// A line says where the event's thread stood before it, in the state to which the events before it led: the method
/// and the offset of its instruction, and the instruction; or the class that it initialised. Of the source's line,
/// and of what the event did, nothing is promised. The line of a run says which events they are, each of them local
/// in the state to which those before it led, and between which offsets of which method. What comes before the run,
/// and its faults, are those of `replay_engine`. Where a device fails or memory is wanted later, a beginning of what
/// is to be written may be.
pub fn trace_engine<S: Source, W: Sink>(
    alloc: Global,
    schedule: &mut S,
    files: &mut [S],
    conditions: &Conditions,
    window: Window<'_>,
    output: &mut W,
) -> Result<Status, Fault>
    // The lines and the report of what the class files do under the schedule are written, and nothing else.
    ensures traced { IfOk result (λ status. (text : _)
        × Traces (S.remaining schedule.old) (map S.remaining files.old) conditions.now window.entry text status
        × Appends (W.contents output.old) (W.contents output.new) text) }
    ensures faulty { IfErr result
        (IsUntraced (S.remaining schedule.old) (map S.remaining files.old) conditions.now window.entry
        (W.contents output.old) (W.contents output.new)) }
    ensures schedule_first { IfErr result (λ fault. IsOfSchedule fault → (files.new ≡ files.old)
        ⊎ IsAfterFiles (S.remaining schedule.old) (map S.remaining files.old) conditions.now fault) }
    ensures counted { CountsFailure result
        (S.failures schedule.old + sum_by S.failures files.old + W.failures output.old)
        (S.failures schedule.new + sum_by S.failures files.new + W.failures output.new) }
{
    let opened = open(alloc, schedule, files, conditions)?;
    let status = traced(alloc, opened, window, output)?;
    Ok(status)
}

/// Runs what was opened, and writes the lines and the report. Answers its status. Lets go what was
/// opened.
fn traced<W: Sink>(
    alloc: Global,
    opened: Opened,
    window: Window<'_>,
    output: &mut W,
) -> Result<Status, DeviceFault>
    ensures traced { IfOk result (λ status. (bytes : _) (options : _)
        → IsOpened bytes (map vec_items opened.files.items) options (arc_value opened.verified)
        (events_of opened.schedule) opened.limits opened.gives_up
        → (text : _) × IsTraced bytes (map vec_items opened.files.items) options window.entry text status
        × Appends (W.contents output.old) (W.contents output.new) text) }
    ensures part { OnErr result ((bytes : _) (options : _)
        → IsOpened bytes (map vec_items opened.files.items) options (arc_value opened.verified)
        (events_of opened.schedule) opened.limits opened.gives_up
        → TracesFront bytes (map vec_items opened.files.items) options window.entry (W.contents output.old)
        (W.contents output.new)) }
    ensures counted { Counts result (W.failures output.old) (W.failures output.new) }
{
    trace_of(alloc, &opened, window, output)
}

/// Runs these class files under their schedule, and writes the lines and the report. Answers its status.
fn trace_of<W: Sink>(
    alloc: Global,
    opened: &Opened,
    window: Window<'_>,
    output: &mut W,
) -> Result<Status, DeviceFault>
    ensures traced { IfOk result (λ status. (bytes : _) (options : _)
        → IsOpened bytes (map vec_items opened.now.files.items) options (arc_value opened.now.verified)
        (events_of opened.now.schedule) opened.now.limits opened.now.gives_up
        → (text : _) × IsTraced bytes (map vec_items opened.now.files.items) options window.entry text status
        × Appends (W.contents output.old) (W.contents output.new) text) }
    ensures part { OnErr result ((bytes : _) (options : _)
        → IsOpened bytes (map vec_items opened.now.files.items) options (arc_value opened.now.verified)
        (events_of opened.now.schedule) opened.now.limits opened.now.gives_up
        → TracesFront bytes (map vec_items opened.now.files.items) options window.entry (W.contents output.old)
        (W.contents output.new)) }
    ensures counted { Counts result (W.failures output.old) (W.failures output.new) }
{
    let (report, end) = trace(
        alloc,
        &opened.verified,
        &opened.schedule,
        opened.limits,
        window,
        output,
    )?;
    let (text, status) = told(alloc, &report, end, opened.gives_up)?;
    output.write_all(text.as_slice())?;
    Ok(status)
}
