//! What the command `shrink` does.
//!
//! # Proved
//!
//! - `shrink_engine`, over any readers and writers: with a status, a text was appended and nothing else. It is that of
//!   a schedule behind which a run has the outcome, as `shrink` of `shrinking` says it (`IsShrunk`); or nothing, and
//!   the status 1, where the given schedule hasn't got it. The file, where one is asked for, spells its events, the
//!   limits and the lengths and checksums of the class files, as far as its version tells them (`shrunk`,
//!   `IsShrunkOf`). Before the tries, and with a fault, it is as `continue_engine` is (`faulty`, `counted`).
//!
//! # Not proved
//!
//! - What is told of the words: how many there were and are.

ghost use Rattle.std.specs.Prelude.{◌≡◌, ◌+◌, ◌<◌, ◌^◌, ◌⊎◌, IfErr, IfOk, None, Some};
ghost use Rattle.std.specs.Prelude.{is_some, length, map, string_bytes, sum_by, unwrap_or, vec_items};
ghost use Rattle.std.specs.Arc.{arc_value};
ghost use Rattle.std.specs.Option.{option_map};
ghost use Rattle.std.specs.Io.KnownBytes.{Appends};
ghost use Rattle.machine.specs.Machines.{IsProgramOf};
ghost use Rattle.model.specs.Accepted.{IsAccepted};
ghost use Rattle.model.specs.Schedule.{events_of};
ghost use Rattle.shrinking.specs.Shrunk.{Has, IsShrunk, Lacks};
ghost use Rattle.engines.specs.Commands.{Leaves, LeavesAt};
ghost use Rattle.engines.specs.Devices.{IsUnable};
ghost use Rattle.engines.specs.Engines.{CountsFailure};
ghost use Rattle.engines.specs.Failures.{FolderMayFail, TellsFailures};
ghost use Rattle.engines.specs.Files.{OfSchedule, known};
ghost use Rattle.engines.specs.Goals.{IsAskedFor};
ghost use Rattle.engines.specs.Opening.{IsOpened};
ghost use Rattle.engines.specs.Recordings.{conditions_of};
ghost use Rattle.engines.specs.Shrinks.{IsShrinkDone, IsShrinkUndone, IsShrunkBy, IsShrunkOf, IsUnshrunk};
ghost use Rattle.engines.specs.Shrinks.{Shrinks, shrunk_text, tries_of};

use crate::commands::storing::{recorded, try_record};
use crate::commands::wanted_outcomes::wanted_for;
use crate::explanation::Explanation;
use crate::fault::Fault;
use crate::named_file::{schedule_source, sources};
use crate::opening::{Opened, open};
use crate::recording::{Conditions, RecordForm};
use crate::running::recorded_file;
use crate::status::Status;
use command_line::Shrink;
use linked_code::LinkedProgram;
use model::{Limits, Sink, Source};
use program_files::Folder;
use program_runs::verified_programs::verified_program;
use schedule::Schedule;
use schedule::schedule_text::print;
use search::run_outcomes::Wanted;
use shrinking::{ContinuedTries, shrink as shrink_schedule};
use std::alloc::{AllocError, Global};
use std::sync::Arc;
use verifier::Verified;

/// How many words a schedule has as text, and how many the one that was found has.
#[derive(Clone, Copy)]
struct WordCounts {
    before: usize,
    after: usize,
}

/// What is made beside the text: the schedule file, where one is asked for and a schedule was found; and the words.
#[derive(Drop)]
pub(crate) struct MadeSchedule {
    file: Option<Vec<u8>>,
    words: Option<WordCounts>,
}

/// `shrink`.
pub(crate) fn shrink<F: Folder, W: Sink>(
    alloc: Global,
    folder: &mut F,
    files: &[Vec<u8>],
    given: usize,
    options: &Shrink,
    output: &mut W,
    explanation: &mut Explanation,
) -> Result<Status, Fault>
    ensures done { IfOk result
        (Leaves (IsShrinkDone (F.held folder.old) given
        (known (map vec_items files.now)) options.now)
        (W.contents output.old) (W.contents output.new) (F.held folder.old) (F.held folder.new)) }
    ensures faulty { IfErr result (LeavesAt (λ fault written.
        (IsUnable fault × (W.contents output.new ≡ W.contents output.old) × (written ≡ None))
        ⊎ IsShrinkUndone (F.held folder.old) given (known (map vec_items files.now)) options.now
        (W.contents output.old) (W.contents output.new) fault written)
        (F.held folder.old) (F.held folder.new)) }
    ensures told { TellsFailures (FolderMayFail F.may_fail) result (W.failures output.old) (W.failures output.new) }
{
    try_record(alloc, folder, &options.record, explanation)?;
    let wanted = wanted_for(alloc, folder, &options.goal)?;
    shrink_for(
        alloc,
        folder,
        files,
        given,
        options,
        &wanted,
        output,
        explanation,
    )
}

/// Shrinks a schedule for an outcome.
fn shrink_for<F: Folder, W: Sink>(
    alloc: Global,
    folder: &mut F,
    files: &[Vec<u8>],
    given: usize,
    options: &Shrink,
    wanted: &Wanted,
    output: &mut W,
    explanation: &mut Explanation,
) -> Result<Status, Fault>
    ensures done { IsAskedFor (F.held folder.old) (Some options.now.goal) wanted.now
        → IfOk result (Leaves
        (IsShrinkDone (F.held folder.old) given (known (map vec_items files.now)) options.now)
        (W.contents output.old) (W.contents output.new) (F.held folder.old) (F.held folder.new)) }
    ensures faulty { IsAskedFor (F.held folder.old) (Some options.now.goal) wanted.now
        → IfErr result (LeavesAt
        (IsShrinkUndone (F.held folder.old) given (known (map vec_items files.now)) options.now
        (W.contents output.old) (W.contents output.new)) (F.held folder.old) (F.held folder.new)) }
    ensures told { TellsFailures (FolderMayFail F.may_fail) result (W.failures output.old) (W.failures output.new) }
{
    let mut made = MadeSchedule {
        file: None,
        words: None,
    };
    let outcome = shrunk_files(
        alloc, folder, files, given, options, wanted, output, &mut made,
    );
    let status = recorded(
        alloc,
        folder,
        &options.record,
        &made.file,
        outcome,
        explanation,
    )?;
    if !options.quiet {
        explanation.tell_more(words_line(alloc, made.words));
    }
    Ok(status)
}

/// The line that tells how many words there were and are, or why there are none.
fn words_line(alloc: Global, words: Option<WordCounts>) -> Result<String, AllocError> {
    match words {
        Some(WordCounts { before, after }) => {
            format!(in alloc; "  words: {before} before, {after} after\n")
        }
        None => format!(in alloc; "  outcome: a run behind the schedule hasn't got it\n"),
    }
}

/// Shrinks a schedule of a folder over its class files, writes its text, and makes the schedule file.
fn shrunk_files<'a, F: Folder, W: Sink>(
    alloc: Global,
    folder: &'a F,
    files: &'a [Vec<u8>],
    given: usize,
    options: &'a Shrink,
    wanted: &Wanted,
    output: &mut W,
    made: &mut MadeSchedule,
) -> Result<Status, Fault>
    ensures shrunk { IfOk result (λ status. (text : _)
        × OfSchedule (F.held folder.now) (string_bytes options.now.schedule) (λ left. Shrinks left given
        (known (map vec_items files.now)) options.now wanted.now text
        (option_map vec_items made.new.file) status)
        × Appends (W.contents output.old) (W.contents output.new) text) }
    ensures faulty { IfErr result (λ fault.
        OfSchedule (F.held folder.now) (string_bytes options.now.schedule) (λ left. IsUnshrunk left given
        (known (map vec_items files.now)) options.now wanted.now
        (W.contents output.old) (W.contents output.new) (option_map vec_items made.old.file)
        (option_map vec_items made.new.file) fault)) }
    ensures told { TellsFailures (FolderMayFail F.may_fail) result (W.failures output.old) (W.failures output.new) }
{
    let mut schedule = schedule_source(alloc, folder, options.schedule.as_str());
    let mut sources = sources(alloc, folder, files)?;
    shrink_engine(
        alloc,
        &mut schedule,
        sources.as_mut_slice(),
        given,
        options,
        wanted,
        output,
        made,
    )
}

/// Looks for a schedule with fewer switches behind which a run of the class files has the outcome that is wanted, too.
/// Makes its file, where one is asked for, writes its text, and answers the status.
///
/// Each try does the events of a schedule and goes on where it ends, as `continue_engine` does. What comes before the
/// tries, and its faults, are those of `replay_engine`.
pub(crate) fn shrink_engine<S: Source, W: Sink>(
    alloc: Global,
    schedule: &mut S,
    files: &mut [S],
    given: usize,
    options: &Shrink,
    wanted: &Wanted,
    text: &mut W,
    made: &mut MadeSchedule,
) -> Result<Status, Fault>
    // The text of the schedule is written, and nothing else; and the file is that of it.
    ensures shrunk { IfOk result (λ status. (written : _)
        × Shrinks (S.remaining schedule.old) given (map S.remaining files.old) options.now wanted.now written
        (option_map vec_items made.new.file) status
        × Appends (W.contents text.old) (W.contents text.new) written) }
    ensures faulty { IfErr result (IsUnshrunk (S.remaining schedule.old) given (map S.remaining files.old) options.now
        wanted.now (W.contents text.old) (W.contents text.new)
        (option_map vec_items made.old.file) (option_map vec_items made.new.file)) }
    ensures counted { CountsFailure result
        (S.failures schedule.old + sum_by S.failures files.old + W.failures text.old)
        (S.failures schedule.new + sum_by S.failures files.new + W.failures text.new) }
{
    let opened = open(alloc, schedule, files, &conditions_of(options, given))?;
    let found = found_of(alloc, opened, given, options, wanted)?;
    *made = found.made;
    text.write_all(found.text.as_slice())?;
    Ok(found.status)
}

/// Under what the schedule is to run.
fn conditions_of(options: &Shrink, given: usize) -> Conditions
    ensures { result
        ≡ conditions_of options.now.limits options.now.any_files given (unwrap_or options.now.budget 10000000) }
{
    Conditions {
        limits: options.limits,
        any_files: options.any_files,
        given,
        budget: options.budget(),
    }
}

/// What was found: its text, what is made beside it, and the status.
#[derive(Drop)]
struct Found {
    text: Vec<u8>,
    made: MadeSchedule,
    status: Status,
}

/// Shrinks the schedule over what was opened, and makes what is to be written. Lets go what was opened.
fn found_of(
    alloc: Global,
    opened: Opened,
    given: usize,
    options: &Shrink,
    wanted: &Wanted,
) -> Result<Found, AllocError>
    requires { IsAccepted (map vec_items opened.files.items) (arc_value opened.verified) }
    ensures { IfOk result (λ found. (bytes : _)
        → IsOpened bytes (map vec_items opened.files.items)
        (conditions_of options.now.limits options.now.any_files given (unwrap_or options.now.budget 10000000))
        (arc_value opened.verified) (events_of opened.schedule) opened.limits opened.gives_up
        → IsShrunkOf bytes given (map vec_items opened.files.items) options.now wanted.now found.text.items
        (option_map vec_items found.made.file) found.status) }
{
    let Opened {
        schedule,
        gives_up: _,
        files,
        verified,
        limits,
    } = opened;
    let shrunk = shrunk_over(alloc, verified, limits, options, wanted, &schedule)?;
    let is_recorded = options.record.is_some();
    let form = RecordForm {
        given,
        as_version: options.as_version,
    };
    found_by(
        alloc,
        &files,
        form,
        limits,
        is_recorded,
        schedule.len(),
        shrunk,
    )
}

/// A schedule over accepted class files that has the outcome which is wanted, as a given one has it; none where that
/// hasn't got it.
fn shrunk_over(
    alloc: Global,
    verified: Arc<Verified>,
    limits: Limits,
    options: &Shrink,
    wanted: &Wanted,
    schedule: &Schedule,
) -> Result<Option<Schedule>, AllocError>
    ensures { IfOk result (IsShrunk (Has (tries_of (arc_value verified) limits options.now wanted.now))
        (Lacks (tries_of (arc_value verified) limits options.now wanted.now)) (events_of schedule.now)) }
{
    let program = verified_program(alloc, &verified)?;
    shrunk_by(
        alloc, &verified, &program, limits, options, wanted, schedule,
    )
}

/// What `shrunk_over` answers, where there is all that a run needs of the class files.
fn shrunk_by(
    alloc: Global,
    verified: &Arc<Verified>,
    program: &Arc<LinkedProgram>,
    limits: Limits,
    options: &Shrink,
    wanted: &Wanted,
    schedule: &Schedule,
) -> Result<Option<Schedule>, AllocError>
    requires { IsProgramOf (arc_value verified.now) (arc_value program.now) }
    ensures { IfOk result (IsShrunk (Has (tries_of (arc_value verified.now) limits options.now wanted.now))
        (Lacks (tries_of (arc_value verified.now) limits options.now wanted.now)) (events_of schedule.now)) }
{
    let tries = ContinuedTries::new(verified, program, limits, options.budget(), wanted);
    shrink_schedule(alloc, &tries, schedule)
}

/// What is to be written of a schedule that was found, if one was.
fn found_by(
    alloc: Global,
    files: &[Vec<u8>],
    form: RecordForm,
    limits: Limits,
    is_recorded: bool,
    before: usize,
    shrunk: Option<Schedule>,
) -> Result<Found, AllocError>
    requires { length files.now < 2 ^ 32 }
    ensures { IfOk result (λ found. IsShrunkBy limits form (map vec_items files.now) is_recorded shrunk
        found.text.items (option_map vec_items found.made.file) found.status) }
{
    match shrunk {
        None => Ok(Found {
            text: Vec::new(alloc),
            made: MadeSchedule {
                file: None,
                words: None,
            },
            status: Status::Threw,
        }),
        Some(shrunk) => found_so(alloc, files, form, limits, is_recorded, before, &shrunk),
    }
}

/// What is to be written of a schedule that was found.
fn found_so(
    alloc: Global,
    files: &[Vec<u8>],
    form: RecordForm,
    limits: Limits,
    is_recorded: bool,
    before: usize,
    shrunk: &Schedule,
) -> Result<Found, AllocError>
    requires { length files.now < 2 ^ 32 }
    ensures { IfOk result (λ found. IsShrunkBy limits form (map vec_items files.now) is_recorded (Some shrunk.now)
        found.text.items (option_map vec_items found.made.file) found.status) }
{
    let text = text_of(alloc, shrunk)?;
    let file = recorded_file(alloc, is_recorded, files, form, limits, shrunk)?;
    let after = shrunk.len();
    let words = Some(WordCounts { before, after });
    Ok(Found {
        text,
        made: MadeSchedule { file, words },
        status: Status::Returned,
    })
}

/// The words of a schedule. Where it has none, it is a line without a word, so that it can be read as a text.
fn text_of(alloc: Global, schedule: &Schedule) -> Result<Vec<u8>, AllocError>
    ensures { IfOk result (λ text. text.items ≡ shrunk_text (Some schedule.now)) }
{
    if schedule.entries().is_empty() {
        Vec::from_slice(alloc, b"\n")
    } else {
        print(alloc, schedule, None)
    }
}
