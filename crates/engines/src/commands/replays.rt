//! `replay`, also one that goes on.

ghost use Rattle.std.specs.Prelude.{◌≡◌, ◌⊎◌, IfErr, IfOk, IsTrue, None, Some, is_some, string_bytes, unwrap_or, vec_items, map};
ghost use Rattle.std.specs.Option.{option_map};
ghost use Rattle.std.specs.Io.KnownBytes.{Appends};
ghost use Rattle.engines.specs.Commands.{IsContinuationDone, IsContinuationUndone, IsReplayDone, IsReplayUndone, Leaves, LeavesAt};
ghost use Rattle.engines.specs.Continuations.{Continues, IsUncontinued};
ghost use Rattle.engines.specs.Devices.{IsUnable};
ghost use Rattle.engines.specs.Files.{OfSchedule, known};
ghost use Rattle.engines.specs.Recordings.{conditions_of};
ghost use Rattle.engines.specs.Failures.{FolderMayFail, TellsFailures};
ghost use Rattle.engines.specs.Replays.{IsFaulty};
ghost use Rattle.engines.specs.Theorem.{Replays};

use crate::commands::storing::{recorded, try_record};
use crate::continuing::continue_engine;
use crate::explanation::Explanation;
use crate::fault::Fault;
use crate::growth::Growth;
use crate::named_file::{schedule_source, sources};
use crate::recording::Conditions;
use crate::replaying::replay_engine;
use crate::status::Status;
use crate::telling::{told_record, told_schedule};
use command_line::{Replay, ThenRun};
use model::Sink;
use program_files::Folder;
use program_runs::workers::Gate;
use std::alloc::Global;

/// `replay`.
pub(crate) fn replay<G: Gate + Growth, F: Folder, W: Sink>(
    alloc: Global,
    gate: &G,
    folder: &mut F,
    files: &[Vec<u8>],
    given: usize,
    options: &Replay,
    output: &mut W,
    explanation: &mut Explanation,
) -> Result<Status, Fault>
    ensures done { IfOk result
        (Leaves (IsReplayDone (F.held folder.old) given
        (known (map vec_items files.now)) options.now options.now.then_run)
        (W.contents output.old) (W.contents output.new) (F.held folder.old) (F.held folder.new)) }
    ensures faulty { IfErr result
        (LeavesAt (IsReplayUndone (F.held folder.old) given
        (known (map vec_items files.now)) options.now options.now.then_run
        (W.contents output.old) (W.contents output.new)) (F.held folder.old) (F.held folder.new)) }
    ensures told { TellsFailures (FolderMayFail F.may_fail) result (W.failures output.old) (W.failures output.new) }
{
    if options.follow {
        gate.follow();
    }
    if let Some(then_run) = &options.then_run {
        return replay_on(
            alloc,
            gate,
            folder,
            files,
            given,
            options,
            then_run,
            output,
            explanation,
        );
    }
    let status = replayed(alloc, gate, folder, files, given, options, output)?;
    if let Some(most) = explanation.most_events(status, options.explain, options.quiet) {
        let lines = told_schedule(
            alloc,
            folder,
            &options.schedule,
            files,
            &conditions_of(options, given),
            most,
        );
        explanation.tell(lines);
    }
    Ok(status)
}

/// Replays a schedule of a folder over its class files, and writes the report.
fn replayed<'a, G: Gate, F: Folder, W: Sink>(
    alloc: Global,
    gate: &G,
    folder: &'a F,
    files: &'a [Vec<u8>],
    given: usize,
    options: &'a Replay,
    output: &mut W,
) -> Result<Status, Fault>
    ensures replayed { IfOk result (λ status. (text : _)
        × OfSchedule (F.held folder.now) (string_bytes options.now.schedule) (λ left. Replays left
        (known (map vec_items files.now))
        (conditions_of options.now.limits options.now.any_files given (unwrap_or options.now.budget 10000000)) text status)
        × Appends (W.contents output.old) (W.contents output.new) text) }
    ensures faulty { IfErr result (λ fault.
        OfSchedule (F.held folder.now) (string_bytes options.now.schedule) (λ left. IsFaulty left
        (known (map vec_items files.now))
        (conditions_of options.now.limits options.now.any_files given (unwrap_or options.now.budget 10000000)) (W.contents output.old)
        (W.contents output.new) fault)) }
    ensures told { TellsFailures (FolderMayFail F.may_fail) result (W.failures output.old) (W.failures output.new) }
{
    let mut schedule = schedule_source(alloc, folder, options.schedule.as_str());
    let mut sources = sources(alloc, folder, files)?;
    replay_engine(
        alloc,
        gate,
        &mut schedule,
        sources.as_mut_slice(),
        &conditions_of(options, given),
        output,
    )
}

/// Under what the schedule is to run.
fn conditions_of(options: &Replay, given: usize) -> Conditions
    ensures { result ≡ conditions_of options.now.limits options.now.any_files given (unwrap_or options.now.budget 10000000) }
{
    Conditions {
        limits: options.limits,
        any_files: options.any_files,
        given,
        budget: options.budget(),
    }
}

/// `replay --then-run`.
fn replay_on<G: Gate, F: Folder, W: Sink>(
    alloc: Global,
    gate: &G,
    folder: &mut F,
    files: &[Vec<u8>],
    given: usize,
    options: &Replay,
    then_run: &ThenRun,
    output: &mut W,
    explanation: &mut Explanation,
) -> Result<Status, Fault>
    ensures done { IfOk result
        (Leaves (IsContinuationDone (F.held folder.old) given
        (known (map vec_items files.now)) options.now then_run.now)
        (W.contents output.old) (W.contents output.new) (F.held folder.old) (F.held folder.new)) }
    ensures faulty { IfErr result (LeavesAt (λ fault written.
        (IsUnable fault × (W.contents output.new ≡ W.contents output.old) × (written ≡ None))
        ⊎ IsContinuationUndone (F.held folder.old) given (known (map vec_items files.now)) options.now then_run.now
        (W.contents output.old) (W.contents output.new) fault written) (F.held folder.old) (F.held folder.new)) }
    ensures told { TellsFailures (FolderMayFail F.may_fail) result (W.failures output.old) (W.failures output.new) }
{
    try_record(alloc, folder, &then_run.record, explanation)?;
    let mut file = None;
    let outcome = continued(
        alloc, gate, folder, files, given, options, then_run, output, &mut file,
    );
    let status = recorded(alloc, folder, &then_run.record, &file, outcome, explanation)?;
    if let Some(most) = explanation.most_events(status, options.explain, options.quiet) {
        let lines = told_record(alloc, &file, files, &conditions_of(options, given), most);
        explanation.tell(lines);
    }
    Ok(status)
}

/// Replays a schedule of a folder over its class files and goes on, writes the report, and makes the schedule file.
fn continued<'a, G: Gate, F: Folder, W: Sink>(
    alloc: Global,
    gate: &G,
    folder: &'a F,
    files: &'a [Vec<u8>],
    given: usize,
    options: &'a Replay,
    then_run: &ThenRun,
    output: &mut W,
    file: &mut Option<Vec<u8>>,
) -> Result<Status, Fault>
    ensures continued { IfOk result (λ status. (text : _)
        × OfSchedule (F.held folder.now) (string_bytes options.now.schedule) (λ left. Continues left
        (known (map vec_items files.now))
        (conditions_of options.now.limits options.now.any_files given (unwrap_or options.now.budget 10000000)) then_run.now text
        (option_map vec_items file.new) status)
        × Appends (W.contents output.old) (W.contents output.new) text) }
    ensures asked { IfOk result (λ _. IsTrue (is_some then_run.now.record) → IsTrue (is_some file.new)) }
    ensures faulty { IfErr result (λ fault.
        OfSchedule (F.held folder.now) (string_bytes options.now.schedule) (λ left. IsUncontinued left
        (known (map vec_items files.now))
        (conditions_of options.now.limits options.now.any_files given (unwrap_or options.now.budget 10000000))
        then_run.now
        (W.contents output.old) (W.contents output.new) (option_map vec_items file.old)
        (option_map vec_items file.new) fault)) }
    ensures told { TellsFailures (FolderMayFail F.may_fail) result (W.failures output.old) (W.failures output.new) }
{
    let mut schedule = schedule_source(alloc, folder, options.schedule.as_str());
    let mut sources = sources(alloc, folder, files)?;
    continue_engine(
        alloc,
        gate,
        &mut schedule,
        sources.as_mut_slice(),
        &conditions_of(options, given),
        then_run,
        output,
        file,
    )
}
