//! The line that tells a person why a command was not done. For it the files are read a second time.

ghost use Rattle.std.specs.Prelude.{◌≡◌, ◌⊎◌, map, string_bytes};
ghost use Rattle.library_files.specs.Adding.{library_file};
ghost use Rattle.std.specs.Option.{option_map};
ghost use Rattle.engines.specs.Advised.{IsExplained, IsToldOf, complaint_fault, is_quiet};

use crate::advised::{advised, named_files};
use crate::command_files::command_files;
use crate::complaint::Complaint;
use crate::differing_files::differing;
use crate::explanation::Explanation;
use crate::fault::Fault;
use crate::main_hints::add_mains;
use crate::named_file::is_given_word;
use crate::place_schedules::explain_place;
use command_line::{Command, Goal, SearchGoal, Usage, command};
use explanations::refusal_explanations::{explain, explain_schedule, explain_text};
use library_files::LibraryClass;
use link_conditions::refusal::RefusalKind;
use program_files::{Folder, first_unlisted, given_paths};
use schedule::ScheduleFault;
use std::alloc::{AllocError, Global};
use std::fmt::Display;
use std::io;

/// What the input is called.
const STANDARD_INPUT: &str = "standard input";

/// A line, where something is known.
type Told = Result<Option<Vec<u8>>, AllocError>;

/// What a command could not read or write.
#[derive(Clone, Copy)]
pub struct Failures<'a> {
    /// The first failure of the input.
    pub input: Option<&'a io::Error>,
    /// The first failure of the output.
    pub output: Option<&'a io::Error>,
}

/// Tells why a command was not done, in a line with two spaces before it, where more is known than the complaint
/// says, and behind it the advice on files that `verify` refuses: where the words ask for it by `--explain`, or it is
/// wanted anyway; and nothing with `--quiet`.
pub fn explain_complaint<F: Folder>(
    alloc: Global,
    library: &[LibraryClass<'_>],
    folder: &F,
    words: &[String],
    complaint: &Complaint<'_>,
    failures: Failures<'_>,
    explanation: &mut Explanation,
)
    ensures { IsExplained (map library_file library.now) (F.held folder.now) (F.listed folder.now)
        (map string_bytes words.now) complaint.now
        explanation.old explanation.new }
{
    let Some(fault) = fault_of(complaint) else {
        return;
    };
    match command(alloc, words) {
        Ok(command) => explain_fault(
            alloc,
            library,
            folder,
            &command,
            fault,
            failures,
            explanation,
        ),
        // help that can't be written
        Err(Usage::Asked(_)) if explanation.is_wanted() => {
            explanation.tell(indented(alloc, of_streams(alloc, failures)));
        }
        Err(_) => {}
    }
}

/// What keeps the command from its end, where the words are one that stands for files.
fn fault_of<'a>(complaint: &'a Complaint<'_>) -> Option<&'a Fault>
    ensures { option_map (λ fault. fault.now) result ≡ complaint_fault complaint.now }
{
    match complaint {
        Complaint::Usage(_) | Complaint::Files(_) => None,
        Complaint::Fault(fault) | Complaint::Library(fault, _) => Some(fault),
    }
}

/// Tells why a command has this fault, and behind it the advice on files that `verify` refuses.
fn explain_fault<F: Folder>(
    alloc: Global,
    library: &[LibraryClass<'_>],
    folder: &F,
    command: &Command,
    fault: &Fault,
    failures: Failures<'_>,
    explanation: &mut Explanation,
)
    ensures { (explanation.new ≡ explanation.old)
        ⊎ IsToldOf (map library_file library.now) (F.held folder.now) (F.listed folder.now) command.now fault.now
        explanation.new }
{
    let (is_explained, is_quiet) = flags_of(command);
    if is_quiet || !(is_explained || explanation.is_wanted()) {
        return;
    }
    let line = told_line(
        alloc,
        library,
        folder,
        command,
        fault,
        failures,
        explanation.unwritten(),
    );
    explanation.tell(indented(alloc, line));
    explanation.add(advised(alloc, folder, command, library, fault));
}

/// What is known of a fault of a command.
fn told_line<F: Folder>(
    alloc: Global,
    library: &[LibraryClass<'_>],
    folder: &F,
    command: &Command,
    fault: &Fault,
    failures: Failures<'_>,
    unwritten: Option<&str>,
) -> Told {
    match fault {
        Fault::Device => of_device(alloc, folder, command, failures, unwritten),
        _ => line_of(alloc, library, folder, command, fault),
    }
}

/// Whether the command has `--explain`, and whether it has `--quiet`.
fn flags_of(command: &Command) -> (bool, bool)
    ensures { result.1 ≡ is_quiet command.now }
{
    match command {
        Command::Run(options) => (options.explain, options.quiet),
        Command::Replay(options) => (options.explain, options.quiet),
        Command::Trace(options) => (options.explain, options.quiet),
        Command::Races(options) => (options.explain, options.quiet),
        Command::Search(options) => (options.explain, options.quiet),
        Command::Shrink(options) => (options.explain, options.quiet),
        Command::Verify(options) => (options.explain, options.quiet),
        Command::Disasm(options) => (options.explain, options.quiet),
        Command::Schedule(options) => (options.explain, options.quiet),
        Command::Places(options) => (options.explain, options.quiet),
    }
}

/// A line, if there is one, with two spaces before it and its end.
fn indented(alloc: Global, line: Told) -> Option<Vec<u8>> {
    let mut bytes = Vec::from_slice(alloc, b"  ").ok()?;
    bytes.extend_from_slice(line.ok()??.as_slice()).ok()?;
    bytes.push(b'\n').ok()?;
    Some(bytes)
}

/// The schedule that is read: its path, or the word that it is.
fn schedule_of(command: &Command) -> Option<&str> {
    match command {
        Command::Replay(options) => Some(options.schedule.as_str()),
        Command::Trace(options) => Some(options.schedule.as_str()),
        Command::Races(options) => Some(options.schedule.as_str()),
        Command::Shrink(options) => Some(options.schedule.as_str()),
        Command::Places(options) => Some(options.schedule.as_str()),
        Command::Schedule(options) if !options.write => Some(options.file.as_str()),
        _ => None,
    }
}

/// The outcome that a sweep or a shrink asks for, if there is one.
fn goal_of(command: &Command) -> Option<&Goal> {
    match command {
        Command::Shrink(options) => Some(&options.goal),
        Command::Run(options) => match &options.sweep {
            Some(sweep) => sweep.goal.as_ref(),
            None => None,
        },
        _ => None,
    }
}

/// The path of the text behind `differs=`, if one is read.
fn text_of(command: &Command) -> Option<&str> {
    match command {
        Command::Search(options) => searched_text(&options.goal),
        _ => match goal_of(command) {
            Some(Goal::Differs(path)) => Some(path.as_str()),
            _ => None,
        },
    }
}

/// The path of the text that a search compares with, if one is read.
fn searched_text(goal: &Option<SearchGoal>) -> Option<&str> {
    match goal {
        Some(SearchGoal::Differs(path)) => Some(path.as_str()),
        _ => None,
    }
}

/// The path of the schedule that is read before the class files, if one is.
fn first_of(alloc: Global, command: &Command) -> Option<&str> {
    match schedule_of(command) {
        // it is a path, whatever it looks like
        Some(word) if matches!(command, Command::Schedule(_)) => Some(word),
        Some(word) if is_given_word(alloc, word.as_bytes()) => None,
        other => other,
    }
}

/// The words that name class files and folders of them.
fn words_of(command: &Command) -> &[String] {
    match command {
        Command::Run(options) => options.files.as_slice(),
        Command::Replay(options) => options.files.as_slice(),
        Command::Trace(options) => options.files.as_slice(),
        Command::Races(options) => options.files.as_slice(),
        Command::Search(options) => options.files.as_slice(),
        Command::Shrink(options) => options.files.as_slice(),
        Command::Verify(options) => options.files.as_slice(),
        Command::Disasm(options) => options.files.as_slice(),
        Command::Places(options) => options.files.as_slice(),
        Command::Schedule(_) => &[],
    }
}

/// What is known of a fault that is no failure of a device.
fn line_of<F: Folder>(
    alloc: Global,
    library: &[LibraryClass<'_>],
    folder: &F,
    command: &Command,
    fault: &Fault,
) -> Told {
    let schedule = schedule_of(command);
    match fault {
        Fault::Device | Fault::Memory => Ok(None),
        Fault::Schedule(fault) => match schedule {
            Some(path) => Ok(Some(of_schedule(alloc, folder, command, library, path, *fault)?)),
            None => Ok(None),
        },
        Fault::Text(fault) => {
            let name = schedule.unwrap_or(STANDARD_INPUT);
            Ok(Some(explain_text(alloc, name, *fault)?))
        }
        Fault::Place(missing) => {
            let name = schedule.unwrap_or(STANDARD_INPUT);
            Ok(Some(explain_place(alloc, name, missing)?))
        }
        Fault::Refusal(refusal) => {
            let Ok(paths) = command_files(alloc, folder, command) else {
                return Ok(None);
            };
            let Ok(files) = named_files(alloc, folder, command, library, &paths) else {
                return Ok(None);
            };
            let mut line = explain(alloc, refusal, &files)?;
            if refusal.kind == RefusalKind::NoMain {
                add_mains(alloc, folder, &paths, &mut line)?;
            }
            Ok(Some(line))
        }
    }
}

/// What is known of a fault of the schedule at a path.
fn of_schedule<F: Folder>(
    alloc: Global,
    folder: &F,
    command: &Command,
    library: &[LibraryClass<'_>],
    path: &str,
    fault: ScheduleFault,
) -> Result<Vec<u8>, AllocError> {
    if let ScheduleFault::Files = fault {
        if let Ok(paths) = command_files(alloc, folder, command) {
            if let Some(line) = differing(alloc, folder, command, library, path, &paths) {
                return Ok(line);
            }
        }
    }
    explain_schedule(alloc, path, fault)
}

/// What failed, and the system's reason: the file that was to be written, the output, the input, or the first file that
/// can't be read.
fn of_device<F: Folder>(
    alloc: Global,
    folder: &F,
    command: &Command,
    failures: Failures<'_>,
    unwritten: Option<&str>,
) -> Told {
    if let Some(line) = unwritten {
        return Ok(Some(Vec::from_slice(alloc, line.as_bytes())?));
    }
    if let Some(line) = of_streams(alloc, failures)? {
        return Ok(Some(line));
    }
    if let Some(path) = text_of(command) {
        if let Err(error) = folder.read(alloc, path) {
            return line_with(alloc, path, &error);
        }
    }
    if let Some(path) = first_of(alloc, command) {
        if let Err(error) = folder.read(alloc, path) {
            return of_first(alloc, command, path, &error);
        }
    }
    let words = words_of(command);
    if let Some(line) = unlisted(alloc, folder, words)? {
        return Ok(Some(line));
    }
    match given_paths(alloc, folder, words) {
        Ok(paths) => unread(alloc, folder, &paths),
        Err(_) => Ok(None),
    }
}

/// Why the file can't be read that is read before the class files. Where a schedule could stand in place of its path,
/// and the path has a mark of one, it is told that it is none.
fn of_first(alloc: Global, command: &Command, path: &str, error: &io::Error) -> Told {
    let may_be_word = !matches!(command, Command::Schedule(_));
    if may_be_word && (path.contains('*') || path.contains('@')) {
        let line = format!(in alloc; "{path}: {error}; nor is this word a schedule")?;
        return Ok(Some(line.into_bytes()));
    }
    line_with(alloc, path, error)
}

/// Which of the output and the input failed, and the system's reason.
fn of_streams(alloc: Global, failures: Failures<'_>) -> Told {
    match (failures.output, failures.input) {
        (Some(error), _) => line_with(alloc, "the output", error),
        (None, Some(error)) => line_with(alloc, STANDARD_INPUT, error),
        (None, None) => Ok(None),
    }
}

/// The first of the words, or of what lies in their folders, of which it isn't known whether it is a folder, and why.
fn unlisted<F: Folder>(alloc: Global, folder: &F, words: &[String]) -> Told {
    for word in words {
        if let Some((path, error)) = first_unlisted(alloc, folder, word.as_str())? {
            return line_with(alloc, path.as_str(), &error);
        }
    }
    Ok(None)
}

/// The first of the files that can't be read, and why.
fn unread<F: Folder>(alloc: Global, folder: &F, paths: &[String]) -> Told {
    for path in paths {
        if let Err(error) = folder.read(alloc, path.as_str()) {
            return line_with(alloc, path.as_str(), &error);
        }
    }
    Ok(None)
}

/// A name, and the reason why it failed.
fn line_with<E: Display>(alloc: Global, name: &str, reason: &E) -> Told {
    Ok(Some(format!(in alloc; "{name}: {reason}")?.into_bytes()))
}
