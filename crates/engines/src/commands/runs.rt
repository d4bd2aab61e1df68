//! What the command `run` does.

ghost use Rattle.std.specs.Prelude.{IfErr, IfOk, IsTrue, is_some, vec_items, map};
ghost use Rattle.std.specs.Option.{option_map};
ghost use Rattle.std.specs.Io.KnownBytes.{Appends};
ghost use Rattle.engines.specs.Commands.{IsRunDone, IsRunDoneBy, IsRunUndone, IsRunUndoneBy, Leaves, LeavesAt};
ghost use Rattle.engines.specs.Files.{known};
ghost use Rattle.engines.specs.Failures.{FolderMayFail, TellsFailures};
ghost use Rattle.engines.specs.RecordForms.{record_form};
ghost use Rattle.engines.specs.Runs.{IsUnrun, Runs};

use crate::commands::seed_sweeps::sweep_files;
use crate::commands::storing::{recorded, try_growth, try_record};
use crate::deadline::Deadline;
use crate::explanation::Explanation;
use crate::fault::Fault;
use crate::going_on::how_to_go_on;
use crate::growth::Growth;
use crate::named_file::sources;
use crate::recording::Conditions;
use crate::running::run_engine;
use crate::seeds::Seeds;
use crate::status::Status;
use crate::telling::told_record;
use command_line::Run;
use model::Sink;
use program_files::Folder;
use program_runs::workers::Gate;
use std::alloc::Global;
use std::sync::Wait;
use std::thread::Threads;
use sweeps::Watch;

/// `run`: once, or for each of the seeds that are asked for.
pub(crate) fn run<
    R: Threads + Wait + Sync,
    G: Gate + Seeds + Deadline + Growth + Watch + Sync,
    F: Folder,
    W: Sink,
>(
    rt: &R,
    alloc: Global,
    gate: &G,
    folder: &mut F,
    files: &[Vec<u8>],
    given: usize,
    options: &Run,
    output: &mut W,
    explanation: &mut Explanation,
) -> Result<Status, Fault>
    ensures done { IfOk result
        (Leaves (IsRunDoneBy (F.held folder.old) given (known (map vec_items files.now)) options.now
        options.now.sweep)
        (W.contents output.old) (W.contents output.new) (F.held folder.old) (F.held folder.new)) }
    ensures faulty { IfErr result
        (LeavesAt (IsRunUndoneBy (F.held folder.old) given (known (map vec_items files.now))
        options.now options.now.sweep (W.contents output.old) (W.contents output.new))
        (F.held folder.old) (F.held folder.new)) }
    ensures told { TellsFailures (FolderMayFail F.may_fail) result (W.failures output.old) (W.failures output.new) }
{
    match &options.sweep {
        Some(sweep) => sweep_files(
            rt,
            alloc,
            gate,
            folder,
            files,
            given,
            options,
            sweep,
            output,
            explanation,
        ),
        None => run_files(
            rt,
            alloc,
            gate,
            folder,
            files,
            given,
            options,
            output,
            explanation,
        ),
    }
}

/// `run`, once.
fn run_files<
    R: Threads + Wait + Sync,
    G: Gate + Seeds + Deadline + Growth + Sync,
    F: Folder,
    W: Sink,
>(
    rt: &R,
    alloc: Global,
    gate: &G,
    folder: &mut F,
    files: &[Vec<u8>],
    given: usize,
    options: &Run,
    output: &mut W,
    explanation: &mut Explanation,
) -> Result<Status, Fault>
    ensures done { IfOk result
        (Leaves (IsRunDone given (known (map vec_items files.now)) options.now)
        (W.contents output.old) (W.contents output.new) (F.held folder.old) (F.held folder.new)) }
    ensures faulty { IfErr result
        (LeavesAt (IsRunUndone given (known (map vec_items files.now)) options.now
        (W.contents output.old) (W.contents output.new)) (F.held folder.old) (F.held folder.new)) }
    ensures told { TellsFailures (FolderMayFail F.may_fail) result (W.failures output.old) (W.failures output.new) }
{
    try_record(alloc, folder, &options.record, explanation)?;
    try_growth(alloc, gate, folder, &options.record, explanation)?;
    let mut file = None;
    let outcome = ran(
        rt, alloc, gate, folder, files, given, options, output, &mut file,
    );
    let told = recorded(alloc, folder, &options.record, &file, outcome, explanation);
    if file.is_some() && !explanation.is_file_lost() {
        gate.record_is_made();
    }
    let status = told?;
    tell(alloc, files, given, options, status, &file, explanation);
    Ok(status)
}

/// Tells what the threads are about, where a run did not end normally, and how it may go on behind its budget.
fn tell(
    alloc: Global,
    files: &[Vec<u8>],
    given: usize,
    options: &Run,
    status: Status,
    file: &Option<Vec<u8>>,
    explanation: &mut Explanation,
) {
    let Some(most) = explanation.most_events(status, options.explain, options.quiet) else {
        return;
    };
    let lines = told_record(alloc, file, files, &conditions_of(options, given), most);
    explanation.tell(lines);
    if status == Status::UsedUp {
        explanation.tell_more(how_to_go_on(alloc, options));
    }
}

/// Under what the schedule that was recorded is to run again.
fn conditions_of(options: &Run, given: usize) -> Conditions {
    Conditions {
        limits: options.limits,
        any_files: false,
        given,
        budget: 10_000_000,
    }
}

/// Runs the class files of a folder, writes the report, and makes the schedule file.
fn ran<R: Threads + Wait + Sync, G: Gate + Seeds + Deadline + Growth + Sync, F: Folder, W: Sink>(
    rt: &R,
    alloc: Global,
    gate: &G,
    folder: &F,
    files: &[Vec<u8>],
    given: usize,
    options: &Run,
    output: &mut W,
    file: &mut Option<Vec<u8>>,
) -> Result<Status, Fault>
    ensures ran { IfOk result (λ status. (text : _)
        × Runs (record_form given options.now.as_version)
        (known (map vec_items files.now)) options.now.limits options.now.options
        (is_some options.now.seconds) options.now.races text (option_map vec_items file.new) status
        × Appends (W.contents output.old) (W.contents output.new) text) }
    ensures asked { IfOk result (λ _. IsTrue (is_some options.now.record) → IsTrue (is_some file.new)) }
    ensures faulty { IfErr result (IsUnrun (record_form given options.now.as_version) (known (map vec_items files.now))
        options.now.limits options.now.options (is_some options.now.seconds) options.now.races
        (W.contents output.old) (W.contents output.new) (option_map vec_items file.old) (option_map vec_items file.new)) }
    ensures told { TellsFailures (FolderMayFail F.may_fail) result (W.failures output.old) (W.failures output.new) }
{
    let mut sources = sources(alloc, folder, files)?;
    run_engine(
        rt,
        alloc,
        gate,
        sources.as_mut_slice(),
        given,
        options,
        output,
        file,
    )
}
