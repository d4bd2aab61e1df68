//! What comes before the class files of a command, where these can't be read.

ghost use Rattle.std.specs.Prelude.{◌≡◌, ◌⊎◌, ℕ, IfErr, string_bytes};
ghost use Rattle.engines.specs.Commands.{IsKeptFirst, KeepsSchedule};
ghost use Rattle.engines.specs.Devices.{IsUnable};
ghost use Rattle.engines.specs.Failures.{FolderMayFail, TellsFailure, TellsFailures};

use crate::commands::outcome_files::try_outcomes;
use crate::commands::searches::goal_by;
use crate::commands::storing::try_record;
use crate::commands::wanted_outcomes::{wanted_by, wanted_for};
use crate::explanation::Explanation;
use crate::fault::Fault;
use crate::named_file::schedule_source;
use crate::place_schedules::read_words;
use command_line::{Command, Goal, Replay, Run, Search, Shrink, Trace};
use program_files::Folder;
use std::alloc::Global;

/// Why a command isn't done whose class files can't be read, by this fault: what comes before them, or else that fault.
pub(crate) fn unread<F: Folder>(
    alloc: Global,
    folder: &F,
    command: &Command,
    fault: Fault,
    explanation: &mut Explanation,
) -> Fault
    ensures first { (result ≡ fault) ⊎ (IsUnable result ⊎ IsKeptFirst (F.held folder.now) command.now result) }
    ensures told { (result ≡ fault) ⊎ ((n : ℕ) → TellsFailure (FolderMayFail F.may_fail) result n n) }
{
    match check_first(alloc, folder, command, explanation) {
        Ok(()) => fault,
        Err(first) => first,
    }
}

/// What keeps a command from its end before its class files are read: the file that is asked for can't be made, or the
/// schedule is refused, or it or the file behind `differs=` can't be read.
fn check_first<F: Folder>(
    alloc: Global,
    folder: &F,
    command: &Command,
    explanation: &mut Explanation,
) -> Result<(), Fault>
    ensures kept { IfErr result (λ fault. IsUnable fault ⊎ IsKeptFirst (F.held folder.now) command.now fault) }
    ensures told { (n : ℕ) → TellsFailures (FolderMayFail F.may_fail) result n n }
{
    match command {
        Command::Run(options) => check_run(alloc, folder, options, explanation),
        Command::Replay(options) => check_replay(alloc, folder, options, explanation),
        Command::Trace(options) => check_trace(alloc, folder, options, explanation),
        Command::Races(options) => check_schedule(alloc, folder, options.schedule.as_str()),
        Command::Places(options) => check_schedule(alloc, folder, options.schedule.as_str()),
        Command::Search(options) => check_search(alloc, folder, options, explanation),
        Command::Shrink(options) => check_shrink(alloc, folder, options, explanation),
        Command::Verify(_) | Command::Disasm(_) | Command::Schedule(_) => Ok(()),
    }
}

fn check_run<F: Folder>(
    alloc: Global,
    folder: &F,
    options: &Run,
    explanation: &mut Explanation,
) -> Result<(), Fault>
    ensures kept { IfErr result IsUnable }
    ensures told { (n : ℕ) → TellsFailures (FolderMayFail F.may_fail) result n n }
{
    match &options.sweep {
        Some(sweep) => {
            check_goal(alloc, folder, &sweep.goal)?;
            check_outcomes(alloc, folder, &options.record, explanation)
        }
        None => check_record(alloc, folder, &options.record, explanation),
    }
}

fn check_replay<F: Folder>(
    alloc: Global,
    folder: &F,
    options: &Replay,
    explanation: &mut Explanation,
) -> Result<(), Fault>
    ensures kept { IfErr result (λ fault. IsUnable fault
        ⊎ KeepsSchedule (F.held folder.now) (string_bytes options.now.schedule) fault) }
    ensures told { (n : ℕ) → TellsFailures (FolderMayFail F.may_fail) result n n }
{
    if let Some(then_run) = &options.then_run {
        check_record(alloc, folder, &then_run.record, explanation)?;
    }
    check_schedule(alloc, folder, options.schedule.as_str())
}

fn check_trace<F: Folder>(
    alloc: Global,
    folder: &F,
    options: &Trace,
    explanation: &mut Explanation,
) -> Result<(), Fault>
    ensures kept { IfErr result (λ fault. IsUnable fault
        ⊎ KeepsSchedule (F.held folder.now) (string_bytes options.now.schedule) fault) }
    ensures told { (n : ℕ) → TellsFailures (FolderMayFail F.may_fail) result n n }
{
    check_record(alloc, folder, &options.html, explanation)?;
    check_schedule(alloc, folder, options.schedule.as_str())
}

fn check_search<F: Folder>(
    alloc: Global,
    folder: &F,
    options: &Search,
    explanation: &mut Explanation,
) -> Result<(), Fault>
    ensures kept { IfErr result IsUnable }
    ensures told { (n : ℕ) → TellsFailures (FolderMayFail F.may_fail) result n n }
{
    check_record(alloc, folder, &options.record, explanation)?;
    let _ = goal_by(alloc, folder, &options.goal)?;
    Ok(())
}

fn check_shrink<F: Folder>(
    alloc: Global,
    folder: &F,
    options: &Shrink,
    explanation: &mut Explanation,
) -> Result<(), Fault>
    ensures kept { IfErr result (λ fault. IsUnable fault
        ⊎ KeepsSchedule (F.held folder.now) (string_bytes options.now.schedule) fault) }
    ensures told { (n : ℕ) → TellsFailures (FolderMayFail F.may_fail) result n n }
{
    check_record(alloc, folder, &options.record, explanation)?;
    let _ = wanted_for(alloc, folder, &options.goal)?;
    check_schedule(alloc, folder, options.schedule.as_str())
}

/// Whether files of outcomes can be made in the folder that is asked for.
fn check_outcomes<F: Folder>(
    alloc: Global,
    folder: &F,
    record: &Option<String>,
    explanation: &mut Explanation,
) -> Result<(), Fault>
    ensures kept { IfErr result IsUnable }
    ensures told { (n : ℕ) → TellsFailures (FolderMayFail F.may_fail) result n n }
{
    Ok(try_outcomes(alloc, folder, record, explanation)?)
}

/// Whether the file that is asked for can be made.
fn check_record<F: Folder>(
    alloc: Global,
    folder: &F,
    record: &Option<String>,
    explanation: &mut Explanation,
) -> Result<(), Fault>
    ensures kept { IfErr result IsUnable }
    ensures told { (n : ℕ) → TellsFailures (FolderMayFail F.may_fail) result n n }
{
    try_record(alloc, folder, record, explanation)?;
    Ok(())
}

/// Whether the file behind `differs=` can be read.
fn check_goal<F: Folder>(alloc: Global, folder: &F, goal: &Option<Goal>) -> Result<(), Fault>
    ensures kept { IfErr result IsUnable }
    ensures told { (n : ℕ) → TellsFailures (FolderMayFail F.may_fail) result n n }
{
    let _ = wanted_by(alloc, folder, goal)?;
    Ok(())
}

/// Whether the schedule that a word is, or whose path it is, is one.
fn check_schedule<F: Folder>(alloc: Global, folder: &F, word: &str) -> Result<(), Fault>
    ensures kept { IfErr result (λ fault. IsUnable fault ⊎ KeepsSchedule (F.held folder.now) word.now fault) }
    ensures told { (n : ℕ) → TellsFailures (FolderMayFail F.may_fail) result n n }
{
    let mut schedule = schedule_source(alloc, folder, word);
    let _ = read_words(alloc, &mut schedule)?;
    Ok(())
}
