//! The page of a run, over any readers and writer.

ghost use Rattle.std.specs.Prelude.{◌≡◌, ◌+◌, ◌⊎◌, IfErr, IfOk, OnErr, Some, map, sum_by, vec_items};
ghost use Rattle.std.specs.Arc.{arc_value};
ghost use Rattle.std.specs.Io.KnownBytes.{Appends};
ghost use Rattle.model.specs.Devices.{Counts};
ghost use Rattle.model.specs.declared.device.DeviceFault.TheVariants.{Memory};
ghost use Rattle.model.specs.Schedule.{events_of};
ghost use Rattle.engines.specs.Engines.{CountsFailure};
ghost use Rattle.engines.specs.Opening.{IsAfterFiles, IsOfSchedule, IsOpened};
ghost use Rattle.engines.specs.PagedRuns.{IsPaged, IsUnpaged, Pages, PagesFront, TracesAs};
ghost use Rattle.program_runs.specs.traced_runs.Traces.{IsTrace};

use crate::fault::Fault;
use crate::made_file::MadeFile;
use crate::opening::{Opened, open};
use crate::place_ends::told;
use crate::recording::Conditions;
use crate::status::Status;
use model::{DeviceFault, End, Report, Sink, Source};
use pages::page_of;
use program_runs::traced_runs::{Window, trace};
use std::alloc::Global;

/// How many bytes the lines of a page may have, before runs of local instructions are folded.
const MOST_BYTES: usize = 900_000;

/// Runs the class files under the schedule, writes the report, and makes the page of the run. Answers the status of the
/// report.
///
/// The page has the lines of the events that are to be told, and the report. Where these lines are long, runs of local
/// instructions are folded, as in a summary. What comes before the run, and its faults, are those of `trace_engine`.
/// Where a device fails or memory is wanted, there is no page.
pub fn page_engine<S: Source, W: Sink>(
    alloc: Global,
    schedule: &mut S,
    files: &mut [S],
    conditions: &Conditions,
    window: Window<'_>,
    output: &mut W,
    page: &mut Option<Vec<u8>>,
) -> Result<Status, Fault>
    // The report of what the class files do under the schedule is written, and the page tells its events.
    ensures paged { IfOk result (λ status. (text : _) × (made : _) × (page.new ≡ Some made)
        × Pages (S.remaining schedule.old) (map S.remaining files.old) conditions.now window.entry text
        made.items status
        × Appends (W.contents output.old) (W.contents output.new) text) }
    ensures faulty { IfErr result
        (IsUnpaged (S.remaining schedule.old) (map S.remaining files.old) conditions.now window.entry
        (W.contents output.old) (W.contents output.new)) }
    ensures none { IfErr result (λ _. page.new ≡ page.old) }
    ensures schedule_first { IfErr result (λ fault. IsOfSchedule fault → (files.new ≡ files.old)
        ⊎ IsAfterFiles (S.remaining schedule.old) (map S.remaining files.old) conditions.now fault) }
    ensures counted { CountsFailure result
        (S.failures schedule.old + sum_by S.failures files.old + W.failures output.old)
        (S.failures schedule.new + sum_by S.failures files.new + W.failures output.new) }
{
    let opened = open(alloc, schedule, files, conditions)?;
    let (made, status) = paged(alloc, opened, window, output)?;
    *page = Some(made);
    Ok(status)
}

/// Runs what was opened, writes the report, and makes the page. Answers the page and the status. Lets go what was
/// opened.
fn paged<W: Sink>(
    alloc: Global,
    opened: Opened,
    window: Window<'_>,
    output: &mut W,
) -> Result<(Vec<u8>, Status), DeviceFault>
    ensures paged { IfOk result (λ made. (bytes : _) (options : _)
        → IsOpened bytes (map vec_items opened.files.items) options (arc_value opened.verified)
        (events_of opened.schedule) opened.limits opened.gives_up
        → (text : _) × IsPaged bytes (map vec_items opened.files.items) options window.entry text made.0.items made.1
        × Appends (W.contents output.old) (W.contents output.new) text) }
    ensures part { OnErr result ((bytes : _) (options : _)
        → IsOpened bytes (map vec_items opened.files.items) options (arc_value opened.verified)
        (events_of opened.schedule) opened.limits opened.gives_up
        → PagesFront bytes (map vec_items opened.files.items) options window.entry (W.contents output.old)
        (W.contents output.new)) }
    ensures counted { Counts result (W.failures output.old) (W.failures output.new) }
{
    let (lines, report, end) = lines_of(alloc, &opened, window)?;
    let (text, status) = told(alloc, &report, end, opened.gives_up)?;
    let page = page_of(alloc, lines.bytes(), text.as_slice())?;
    output.write_all(text.as_slice())?;
    Ok((page.into_bytes(), status))
}

/// The lines of a page, with what comes of the run; folded where they are long. The only error is a want of memory.
fn lines_of(
    alloc: Global,
    opened: &Opened,
    window: Window<'_>,
) -> Result<(MadeFile, Report, End), DeviceFault>
    ensures traced { IfOk result (λ made. TracesAs (arc_value opened.now.verified) (events_of opened.now.schedule)
        opened.now.limits window.entry made.1 made.2 made.0.bytes.items) }
    ensures memory { IfErr result (λ fault. fault ≡ Memory) }
{
    let whole = traced_lines(alloc, opened, window)?;
    if whole.0.bytes().len() <= MOST_BYTES {
        return Ok(whole);
    }
    let folded = Window {
        from: window.from,
        to: window.to,
        only: window.only,
        form: window.form,
        summary: true,
    };
    traced_lines(alloc, opened, folded)
}

/// The lines of a trace, with what comes of the run. The only error is a want of memory.
fn traced_lines(
    alloc: Global,
    opened: &Opened,
    window: Window<'_>,
) -> Result<(MadeFile, Report, End), DeviceFault>
    ensures traced { IfOk result (λ made. IsTrace (arc_value opened.now.verified) (events_of opened.now.schedule)
        opened.now.limits window.entry made.1 made.2 made.0.bytes.items) }
    ensures memory { IfErr result (λ fault. fault ≡ Memory) }
{
    let mut lines = MadeFile::new(alloc);
    let (report, end) = trace(
        alloc,
        &opened.verified,
        &opened.schedule,
        opened.limits,
        window,
        &mut lines,
    )?;
    Ok((lines, report, end))
}
