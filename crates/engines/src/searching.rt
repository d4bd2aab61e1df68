//! A search over all schedules, over any readers and writers.

ghost use Rattle.std.specs.Prelude.{◌≡◌, ◌+◌, ◌<◌, ◌^◌, IfOk, IfErr, IsTrue, codes, length, map, is_some, sum_by, vec_items};
ghost use Rattle.std.specs.Option.{option_map};
ghost use Rattle.std.specs.Io.KnownBytes.{Appends};
ghost use Rattle.model.specs.Accepted.{IsAccepted};
ghost use Rattle.engines.specs.Engines.{CountsFailure};
ghost use Rattle.engines.specs.RecordForms.{record_form, recorded_as};
ghost use Rattle.engines.specs.Searches.{IsFileOf, IsRaceReached, IsSearched, IsUnsearched, Searches, TellsRace, most_states};
ghost use Rattle.model.specs.Report.{line};
ghost use Rattle.search.specs.RacyStates.{IsRaceShown};
ghost use Rattle.search.specs.search_reports.Answers.{TellsRaceOf};

use crate::class_files::read_class_files;
use crate::fault::Fault;
use crate::recording::RecordForm;
use crate::running::{Outcome, recorded_file};
use crate::status::Status;
use crate::verification::accepted;
use command_line::Search;
use model::{Limits, Sink, Source};
use program_runs::verified_programs::verified_program;
use schedule::Schedule;
use schedule::report::push_line;
use search::search_reports::{Answer, SearchReport, search_report};
use search::{Goal, Progress, states_within};
use state_races::reached_races::race_line;
use std::alloc::{AllocError, Global};
use verifier::Verified;

/// Searches all schedules of the class files, as far as the options say, for what is to be found. Makes the schedule
/// file of the run that was found, where one is asked for; writes what comes of the search, and answers the
/// status.
///
/// The first so many of the class files are given, and a library adds the others: the schedule file tells them so.
///
/// A fault of the class files is answered before anything runs, and nothing is written or made then; nor is anything
/// after a want of memory in the search. The file is there before the report is written. The progress is told how far
/// the search has come.
pub fn search_engine<P: Progress, S: Source, W: Sink>(
    alloc: Global,
    progress: &P,
    files: &mut [S],
    given: usize,
    options: &Search,
    goal: &Goal,
    report: &mut W,
    file: &mut Option<Vec<u8>>,
) -> Result<Status, Fault>
    // What can come of the class files is written, or a run to what is to be found, and nothing else; and the file is
    // that of the run's schedule, where it is asked for.
    ensures searched { IfOk result (λ status. (text : _)
        × Searches (record_form given options.now.as_version)
        (map S.remaining files.old) options.now.limits goal.now (P.may_stop progress.now)
        (most_states options.now) (is_some options.now.record) text (option_map vec_items file.new) status
        × Appends (W.contents report.old) (W.contents report.new) text) }
    ensures faulty { IfErr result
        (IsUnsearched (record_form given options.now.as_version)
        (map S.remaining files.old) options.now.limits goal.now (P.may_stop progress.now)
        (most_states options.now) (is_some options.now.record) (W.contents report.old) (W.contents report.new)
        (option_map vec_items file.old) (option_map vec_items file.new)) }
    ensures counted { CountsFailure result
        (sum_by S.failures files.old + W.failures report.old)
        (sum_by S.failures files.new + W.failures report.new) }
{
    let read = read_class_files(alloc, files)?;
    let files = read.as_slice();
    let verified = accepted(alloc, files)?;
    let searched = searched(alloc, progress, verified, files, given, options, goal)?;
    *file = searched.file;
    report.write_all(searched.text.as_slice())?;
    Ok(searched.status)
}

/// Searches accepted class files, and makes what is to be written. Lets them go.
fn searched<P: Progress>(
    alloc: Global,
    progress: &P,
    verified: Verified,
    files: &[Vec<u8>],
    given: usize,
    options: &Search,
    goal: &Goal,
) -> Result<Outcome, AllocError>
    requires { IsAccepted (map vec_items files.now) verified }
    ensures { IfOk result (λ searched.
        IsSearched (record_form given options.now.as_version)
        (map vec_items files.now) options.now.limits goal.now (P.may_stop progress.now)
        (most_states options.now) (is_some options.now.record) searched.text.items
        (option_map vec_items searched.file) searched.status) }
{
    search_of(alloc, progress, &verified, files, given, options, goal)
}

/// Searches accepted class files, and makes what is to be written.
fn search_of<P: Progress>(
    alloc: Global,
    progress: &P,
    verified: &Verified,
    files: &[Vec<u8>],
    given: usize,
    options: &Search,
    goal: &Goal,
) -> Result<Outcome, AllocError>
    requires { IsAccepted (map vec_items files.now) verified.now }
    ensures { IfOk result (λ searched.
        IsSearched (record_form given options.now.as_version)
        (map vec_items files.now) options.now.limits goal.now (P.may_stop progress.now)
        (most_states options.now) (is_some options.now.record) searched.text.items
        (option_map vec_items searched.file) searched.status) }
{
    let limits = options.limits.limits();
    let program = verified_program(alloc, verified)?;
    let linked = verified.linked();
    let most = most_states(options);
    let searched = search_report(alloc, progress, linked, program, limits, goal, most)?;
    let race = told_race(alloc, verified, &searched, limits)?;
    let text = searched.text(alloc, race.as_slice())?;
    let is_recorded = options.record.is_some();
    let form = RecordForm {
        given,
        as_version: options.as_version,
    };
    let file = found_file(alloc, is_recorded, files, form, limits, &searched.answer)?;
    let status = Status::of_search(&searched.answer);
    Ok(Outcome { text, file, status })
}

/// The word for a race of which no more is told. The only error is a want of memory.
fn race_word(alloc: Global) -> Result<Vec<u8>, AllocError>
    ensures { IfOk result (λ text. text.items ≡ line (codes "race")) }
{
    let mut text = Vec::new(alloc);
    push_line(&mut text, b"race")?;
    Ok(text)
}

/// The line of the race of the state to which a schedule leads, if a race is told. The only error is a want of memory.
fn shown_race(
    alloc: Global,
    verified: &Verified,
    limits: Limits,
    is_told: bool,
    race: &Option<Schedule>,
) -> Result<Vec<u8>, AllocError>
    requires { IsRaceShown verified.now limits is_told race.now }
    ensures { IfOk result (λ text. IsTrue is_told → IsRaceReached verified.now limits.frames text.items) }
{
    match race {
        Some(schedule) => race_line(alloc, verified, schedule, limits),
        None => race_word(alloc),
    }
}

/// The line of a race, where the answer of a search is complete and tells one: that of a state to which a run comes.
/// Else it is the word alone. The only error is a want of memory.
fn told_race(
    alloc: Global,
    verified: &Verified,
    searched: &SearchReport,
    limits: Limits,
) -> Result<Vec<u8>, AllocError>
    requires { TellsRaceOf verified.now limits searched.now.answer searched.now.race }
    ensures { IfOk result (λ text. TellsRace verified.now limits searched.now.answer text.items) }
{
    match &searched.answer {
        Answer::Complete(_, kinds) => {
            shown_race(alloc, verified, limits, kinds.race, &searched.race)
        }
        Answer::Found(_, _, _) | Answer::GaveUp => race_word(alloc),
    }
}

/// How many states there may be.
fn most_states(options: &Search) -> u32
    ensures { result ≡ most_states options.now }
{
    let states = options.states();
    let room = states_within(options.memory());
    if room < states { room } else { states }
}

/// The schedule file of the run that a search of the class files has found, where one is asked for.
fn found_file(
    alloc: Global,
    is_recorded: bool,
    files: &[Vec<u8>],
    form: RecordForm,
    limits: Limits,
    answer: &Answer,
) -> Result<Option<Vec<u8>>, AllocError>
    requires { length files.now < 2 ^ 32 }
    ensures { IfOk result (λ file. IsFileOf
        (recorded_as limits form (map vec_items files.now)) is_recorded answer.now
        (option_map vec_items file)) }
{
    match answer {
        Answer::Found(schedule, _, _) => recorded_file(
            alloc,
            is_recorded,
            files,
            form,
            limits,
            schedule,
        ),
        Answer::Complete(_, _) | Answer::GaveUp => Ok(None),
    }
}
