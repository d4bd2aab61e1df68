//! What the command `trace` does.

ghost use Rattle.std.specs.Prelude.{◌≡◌, IfErr, IfOk, None, map, vec_items};
ghost use Rattle.std.specs.Io.KnownBytes.{Appends};
ghost use Rattle.engines.specs.Commands.{IsTraceDone, IsTraceUndone, IsWindow, Leaves, LeavesAt, form_of};
ghost use Rattle.engines.specs.Files.{known};
ghost use Rattle.engines.specs.Recordings.{conditions_of};
ghost use Rattle.engines.specs.Failures.{FolderMayFail, TellsFailures};

use crate::commands::run_pages::run_page;
use crate::explanation::Explanation;
use crate::fault::Fault;
use crate::named_file::{schedule_source, sources};
use crate::recording::Conditions;
use crate::status::Status;
use crate::telling::told_schedule;
use crate::tracing::trace_engine;
use command_line::{Trace, TraceForm};
use model::Sink;
use program_files::Folder;
use program_runs::traced_runs::{Form, Window};
use std::alloc::Global;

/// `trace`, by lines or by a page.
pub(crate) fn trace<F: Folder, W: Sink>(
    alloc: Global,
    folder: &mut F,
    files: &[Vec<u8>],
    given: usize,
    options: &Trace,
    output: &mut W,
    explanation: &mut Explanation,
) -> Result<Status, Fault>
    ensures done { IfOk result (Leaves (IsTraceDone (F.held folder.old) given (known (map vec_items files.now))
        options.now options.now.html)
        (W.contents output.old) (W.contents output.new) (F.held folder.old) (F.held folder.new)) }
    ensures faulty { IfErr result (LeavesAt (IsTraceUndone (F.held folder.old) given
        (known (map vec_items files.now)) options.now options.now.html (W.contents output.old) (W.contents output.new))
        (F.held folder.old) (F.held folder.new)) }
    ensures told { TellsFailures (FolderMayFail F.may_fail) result (W.failures output.old) (W.failures output.new) }
{
    let status = told_run(alloc, folder, files, given, options, output, explanation)?;
    if let Some(most) = explanation.most_events(status, options.explain, options.quiet) {
        let lines = told_schedule(
            alloc,
            folder,
            &options.schedule,
            files,
            &conditions_of(options, given),
            most,
        );
        explanation.tell(lines);
    }
    Ok(status)
}

/// Tells a run by lines, or by a page where one is asked for.
fn told_run<F: Folder, W: Sink>(
    alloc: Global,
    folder: &mut F,
    files: &[Vec<u8>],
    given: usize,
    options: &Trace,
    output: &mut W,
    explanation: &mut Explanation,
) -> Result<Status, Fault>
    ensures done { IfOk result (Leaves (IsTraceDone (F.held folder.old) given (known (map vec_items files.now))
        options.now options.now.html)
        (W.contents output.old) (W.contents output.new) (F.held folder.old) (F.held folder.new)) }
    ensures faulty { IfErr result (LeavesAt (IsTraceUndone (F.held folder.old) given
        (known (map vec_items files.now)) options.now options.now.html (W.contents output.old) (W.contents output.new))
        (F.held folder.old) (F.held folder.new)) }
    ensures told { TellsFailures (FolderMayFail F.may_fail) result (W.failures output.old) (W.failures output.new) }
{
    match &options.html {
        Some(_) => run_page(alloc, folder, files, given, options, output, explanation),
        None => traced(alloc, folder, files, given, options, output),
    }
}

/// Tells a run of the class files of a folder under its schedule.
fn traced<'a, F: Folder, W: Sink>(
    alloc: Global,
    folder: &'a F,
    files: &'a [Vec<u8>],
    given: usize,
    options: &'a Trace,
    output: &mut W,
) -> Result<Status, Fault>
    ensures traced { IfOk result (λ status. (text : _)
        × IsTraceDone (F.held folder.now) given
        (known (map vec_items files.now)) options.now None text None status
        × Appends (W.contents output.old) (W.contents output.new) text) }
    ensures faulty { IfErr result (λ fault.
        IsTraceUndone (F.held folder.now) given (known (map vec_items files.now)) options.now None
        (W.contents output.old) (W.contents output.new) fault None) }
    ensures told { TellsFailures (FolderMayFail F.may_fail) result (W.failures output.old) (W.failures output.new) }
{
    let conditions = conditions_of(options, given);
    let window = window_of(options);
    let mut schedule = schedule_source(alloc, folder, options.schedule.as_str());
    let mut sources = sources(alloc, folder, files)?;
    trace_engine(
        alloc,
        &mut schedule,
        sources.as_mut_slice(),
        &conditions,
        window,
        output,
    )
}

/// Under what the schedule is to run.
pub(super) fn conditions_of(options: &Trace, given: usize) -> Conditions
    ensures { result ≡ conditions_of options.now.limits options.now.any_files given 10000000 }
{
    Conditions {
        limits: options.limits,
        any_files: options.any_files,
        given,
        budget: 10_000_000,
    }
}

/// Which events are told, and in which form: from the first one on, to the last one, and of all threads, where the
/// words don't say.
pub(super) fn window_of(options: &Trace) -> Window<'_>
    ensures { IsWindow options.now result }
{
    Window {
        from: u64::from(options.from.unwrap_or(0)),
        to: match options.to {
            Some(last) => u64::from(last),
            None => u64::MAX,
        },
        only: match &options.only {
            Some(threads) => Some(threads.as_slice()),
            None => None,
        },
        form: form_of(options.form),
        summary: options.summary,
    }
}

fn form_of(form: TraceForm) -> Form
    ensures { result ≡ form_of form }
{
    match form {
        TraceForm::Plain => Form::Plain,
        TraceForm::Columns => Form::Columns,
        TraceForm::Json => Form::Json,
    }
}
