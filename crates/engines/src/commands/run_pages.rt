//! `trace --html`.

ghost use Rattle.std.specs.Prelude.{◌≡◌, ◌⊎◌, IfErr, IfOk, None, Some, map, vec_items};
ghost use Rattle.std.specs.Io.KnownBytes.{Appends};
ghost use Rattle.engines.specs.Commands.{IsPageDone, IsPageUndone, IsPageWindow, IsRunPaged, IsRunUnpaged};
ghost use Rattle.engines.specs.Commands.{Leaves, LeavesAt};
ghost use Rattle.engines.specs.Devices.{IsUnable};
ghost use Rattle.engines.specs.Files.{known};
ghost use Rattle.engines.specs.Failures.{FolderMayFail, TellsFailures};

use crate::commands::event_traces::{conditions_of, window_of};
use crate::commands::storing::{recorded, try_record};
use crate::explanation::Explanation;
use crate::fault::Fault;
use crate::named_file::{schedule_source, sources};
use crate::paging::page_engine;
use crate::status::Status;
use command_line::Trace;
use model::Sink;
use program_files::Folder;
use program_runs::traced_runs::{Form, Window};
use std::alloc::Global;

/// Runs the class files of a folder under its schedule, and writes the report and the page.
pub(super) fn run_page<F: Folder, W: Sink>(
    alloc: Global,
    folder: &mut F,
    files: &[Vec<u8>],
    given: usize,
    options: &Trace,
    output: &mut W,
    explanation: &mut Explanation,
) -> Result<Status, Fault>
    ensures done { IfOk result (Leaves (IsPageDone (F.held folder.old) given (known (map vec_items files.now))
        options.now)
        (W.contents output.old) (W.contents output.new) (F.held folder.old) (F.held folder.new)) }
    ensures faulty { IfErr result (LeavesAt (λ fault written.
        (IsUnable fault × (W.contents output.new ≡ W.contents output.old) × (written ≡ None))
        ⊎ IsPageUndone (F.held folder.old) given (known (map vec_items files.now)) options.now
        (W.contents output.old) (W.contents output.new) fault written)
        (F.held folder.old) (F.held folder.new)) }
    ensures told { TellsFailures (FolderMayFail F.may_fail) result (W.failures output.old) (W.failures output.new) }
{
    try_record(alloc, folder, &options.html, explanation)?;
    let mut made = None;
    let outcome = paged(alloc, folder, files, given, options, output, &mut made);
    recorded(alloc, folder, &options.html, &made, outcome, explanation)
}

/// Runs the class files of a folder under its schedule, writes the report, and makes the page.
fn paged<'a, F: Folder, W: Sink>(
    alloc: Global,
    folder: &'a F,
    files: &'a [Vec<u8>],
    given: usize,
    options: &'a Trace,
    output: &mut W,
    made: &mut Option<Vec<u8>>,
) -> Result<Status, Fault>
    ensures paged { IfOk result (λ status. (text : _) × (page : _) × (made.new ≡ Some page)
        × IsRunPaged (F.held folder.now) given (known (map vec_items files.now)) options.now text page.items status
        × Appends (W.contents output.old) (W.contents output.new) text) }
    ensures faulty { IfErr result (IsRunUnpaged (F.held folder.now) given (known (map vec_items files.now)) options.now
        (W.contents output.old) (W.contents output.new)) }
    ensures none { IfErr result (λ _. made.new ≡ made.old) }
    ensures told { TellsFailures (FolderMayFail F.may_fail) result (W.failures output.old) (W.failures output.new) }
{
    let conditions = conditions_of(options, given);
    let window = page_window_of(options);
    let mut schedule = schedule_source(alloc, folder, options.schedule.as_str());
    let mut sources = sources(alloc, folder, files)?;
    page_engine(
        alloc,
        &mut schedule,
        sources.as_mut_slice(),
        &conditions,
        window,
        output,
        made,
    )
}

/// The same of a page, whose lines are objects of JSON.
fn page_window_of(options: &Trace) -> Window<'_>
    ensures { IsPageWindow options.now result }
{
    let window = window_of(options);
    Window {
        from: window.from,
        to: window.to,
        only: window.only,
        form: Form::Json,
        summary: window.summary,
    }
}
