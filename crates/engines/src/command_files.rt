//! The class files of a command.

ghost use Rattle.std.specs.Prelude.{◌≡◌, IfErr, IfOk, Some, false, map, string_bytes, true};
ghost use Rattle.std.specs.Option.{option_map};
ghost use Rattle.program_files.specs.Folders.{FolderMayFail};
ghost use Rattle.program_files.specs.declared.files_fault.FilesFault.TheVariants.{Device};
ghost use Rattle.command_line.specs.CommandLine.{Refuses};
ghost use Rattle.engines.specs.Commands.{AreFiles, AreVerified, HasNoFiles, IsReadAt, IsReadIn, IsReadToo, IsUnread, IsUnreadAt, IsUnreadIn, IsUnverified, goal_texts, outcome_folder, record_path, sweep_texts};
ghost use Rattle.engines.specs.OutcomeFiles.{has_outcome, lead_to_outcome, may_be_outcome};

use command_line::{Command, Goal, Usage, Verify, is_absolute, steps_of};
use program_files::{FilesFault, Folder, given_paths, handed_on, is_given};
use std::alloc::{AllocError, Global};
use std::slice;

/// The paths of the class files that the words of a command stand for, in the order in which they are handed on.
pub(crate) fn command_files<F: Folder>(
    alloc: Global,
    folder: &F,
    command: &Command,
) -> Result<Vec<String>, FilesFault>
    ensures files { IfOk result (λ files.
        AreFiles (F.held folder.now) (F.listed folder.now) command.now (map string_bytes files.items)) }
    ensures faulty { IfErr result (HasNoFiles (F.held folder.now) (F.listed folder.now) command.now) }
    ensures failed { IfErr result (λ fault. fault ≡ Device → FolderMayFail F.may_fail) }
{
    match command {
        Command::Run(options) => handed_on(alloc, folder, &options.files, &options.main),
        Command::Replay(options) => handed_on(alloc, folder, &options.files, &options.main),
        Command::Trace(options) => handed_on(alloc, folder, &options.files, &options.main),
        Command::Races(options) => handed_on(alloc, folder, &options.files, &options.main),
        Command::Search(options) => handed_on(alloc, folder, &options.files, &options.main),
        Command::Shrink(options) => handed_on(alloc, folder, &options.files, &options.main),
        Command::Verify(options) => verified_files(alloc, folder, options),
        Command::Disasm(options) => given_paths(alloc, folder, &options.files),
        Command::Places(options) => handed_on(alloc, folder, &options.files, &options.main),
        Command::Schedule(_) => Ok(Vec::new(alloc)),
    }
}

/// The files that are verified. Of a library none has to come first.
fn verified_files<F: Folder>(
    alloc: Global,
    folder: &F,
    options: &Verify,
) -> Result<Vec<String>, FilesFault>
    ensures files { IfOk result (λ files.
        AreVerified (F.held folder.now) (F.listed folder.now) options.now.library
        (option_map string_bytes options.now.main) (map string_bytes options.now.files.items)
        (map string_bytes files.items)) }
    ensures faulty { IfErr result (IsUnverified (F.held folder.now) (F.listed folder.now) options.now.library
        (option_map string_bytes options.now.main) (map string_bytes options.now.files.items)) }
    ensures failed { IfErr result (λ fault. fault ≡ Device → FolderMayFail F.may_fail) }
{
    match (options.library, &options.main) {
        (true, None) => given_paths(alloc, folder, &options.files),
        (_, main) => handed_on(alloc, folder, &options.files, main),
    }
}

/// Refuses a file that is to be written, or that may be, and is one of these, which are read, or the text that the
/// outcomes of a sweep are compared with.
pub(crate) fn check_record(alloc: Global, command: &Command, files: &[String]) -> Result<(), Usage>
    ensures apart { IfOk result (λ _. IsUnread command.now (map string_bytes files.now)) }
    ensures read { IfErr result (λ usage. Refuses usage (IsReadToo command.now (map string_bytes files.now))) }
{
    check_path(alloc, written_option(command), record_path(command), files)?;
    check_outcomes(alloc, outcome_folder(command), files)?;
    check_outcomes(alloc, outcome_folder(command), sweep_texts(command))
}

/// Refuses a file that is to be written, by an option of this name, and is one of these.
fn check_path(
    alloc: Global,
    option: &str,
    path: Option<&str>,
    files: &[String],
) -> Result<(), Usage>
    ensures apart { IfOk result (λ _.
        IsUnreadAt (option_map (λ path. path.now) path.entry) (map string_bytes files.now)) }
    ensures read { IfErr result (λ usage. Refuses usage
        (IsReadAt (option_map (λ path. path.now) path.entry) (map string_bytes files.now))) }
{
    let Some(path) = path else {
        return Ok(());
    };
    if is_given(alloc, files, path)? {
        return Err(Usage::read_too(alloc, option, path));
    }
    Ok(())
}

/// Refuses a folder for the schedules of outcomes, one of which may be one of these files.
fn check_outcomes(alloc: Global, folder: Option<&str>, files: &[String]) -> Result<(), Usage>
    ensures apart { IfOk result (λ _.
        IsUnreadIn (option_map (λ path. path.now) folder.entry) (map string_bytes files.now)) }
    ensures read { IfErr result (λ usage. Refuses usage
        (IsReadIn (option_map (λ path. path.now) folder.entry) (map string_bytes files.now))) }
{
    match folder {
        Some(folder) => check_folder(alloc, folder, files),
        None => Ok(()),
    }
}

/// The same of a folder that is there.
fn check_folder(alloc: Global, folder: &str, files: &[String]) -> Result<(), Usage>
    ensures apart { IfOk result (λ _. has_outcome folder.now (map string_bytes files.now) ≡ false) }
    ensures read { IfErr result (λ usage. Refuses usage (has_outcome folder.now (map string_bytes files.now) ≡ true)) }
{
    for file in files {
        if may_be_outcome(alloc, folder, file.as_str())? {
            return Err(Usage::read_in(alloc, folder, file.as_str()));
        }
    }
    Ok(())
}

/// Whether a file lies in a folder, by a name that begins and ends as that of the schedule of an outcome.
fn may_be_outcome(alloc: Global, folder: &str, file: &str) -> Result<bool, AllocError>
    ensures { IfOk result (λ is. is ≡ may_be_outcome folder.now file.now) }
{
    let front = format!(in alloc; "{folder}/outcome-")?;
    let front_steps = steps_of(alloc, front.as_str())?;
    let steps = steps_of(alloc, file)?;
    Ok(
        is_absolute(front.as_str()) == is_absolute(file)
            && lead_to_outcome(steps.as_str(), front_steps.as_str()),
    )
}

/// Whether steps begin as those of the files of outcomes, which are given, and end as these.
fn lead_to_outcome(steps: &str, front: &str) -> bool
    ensures { result ≡ lead_to_outcome steps.now front.now }
{
    steps.as_bytes().starts_with(front.as_bytes()) && steps.as_bytes().ends_with(b".schedule")
}

/// The folder in which the schedules of the outcomes of a sweep are written, if they are.
fn outcome_folder(command: &Command) -> Option<&str>
    ensures { option_map (λ path. path.now) result ≡ outcome_folder command.now }
{
    match command {
        Command::Run(options) => match &options.sweep {
            Some(_) => options.record.as_deref(),
            None => None,
        },
        Command::Replay(_)
        | Command::Trace(_)
        | Command::Races(_)
        | Command::Search(_)
        | Command::Shrink(_)
        | Command::Verify(_)
        | Command::Disasm(_)
        | Command::Schedule(_)
        | Command::Places(_) => None,
    }
}

/// The path of the text that the outcomes of a sweep are compared with, if there is one.
fn sweep_texts(command: &Command) -> &[String]
    ensures { map string_bytes result.now ≡ sweep_texts command.now }
{
    match command {
        Command::Run(options) => match &options.sweep {
            Some(sweep) => goal_texts(&sweep.goal),
            None => &[],
        },
        Command::Replay(_)
        | Command::Trace(_)
        | Command::Races(_)
        | Command::Search(_)
        | Command::Shrink(_)
        | Command::Verify(_)
        | Command::Disasm(_)
        | Command::Schedule(_)
        | Command::Places(_) => &[],
    }
}

/// The path of the text behind `differs=`, if there is one.
fn goal_texts(goal: &Option<Goal>) -> &[String]
    ensures { map string_bytes result.now ≡ goal_texts goal.now }
{
    match goal {
        Some(Goal::Differs(path)) => slice::from_ref(path),
        Some(Goal::Deadlock | Goal::Uncaught | Goal::Output(_) | Goal::Text(_)) | None => &[],
    }
}

/// The name of the option that names the file that is written.
fn written_option(command: &Command) -> &'static str {
    match command {
        Command::Trace(_) => "html",
        _ => "record",
    }
}

/// The path of the file that the schedule of a run, or its page, is written to, if one is.
pub(crate) fn record_path(command: &Command) -> Option<&str>
    ensures { option_map (λ path. path.now) result ≡ record_path command.now }
{
    match command {
        Command::Run(options) => options.record.as_deref(),
        Command::Replay(options) => match &options.then_run {
            Some(then_run) => then_run.record.as_deref(),
            None => None,
        },
        Command::Search(options) => options.record.as_deref(),
        Command::Shrink(options) => options.record.as_deref(),
        Command::Trace(options) => options.html.as_deref(),
        Command::Races(_)
        | Command::Verify(_)
        | Command::Disasm(_)
        | Command::Schedule(_)
        | Command::Places(_) => None,
    }
}
