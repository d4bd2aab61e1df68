//! A run, over any readers and writers.

ghost use Rattle.std.specs.Prelude.{◌≡◌, ◌+◌, ◌<◌, ◌^◌, Some, IfOk, IfErr, IfSome, IsTrue, length, map, is_some, sum_by, unwrap_or, vec_items};
ghost use Rattle.std.specs.Option.{option_map};
ghost use Rattle.std.specs.Io.KnownBytes.{Appends};
ghost use Rattle.model.specs.Accepted.{IsAccepted};
ghost use Rattle.model.specs.Schedule.{events_of};
ghost use Rattle.machine.specs.machine_replay.Replays.{text_of};
ghost use Rattle.program_runs.specs.worlds.Records.{IsRecordWithin};
ghost use Rattle.engines.specs.Engines.{CountsFailure};
ghost use Rattle.engines.specs.Policies.{IsRunFor};
ghost use Rattle.engines.specs.Statuses.{status_of};
ghost use Rattle.engines.specs.Runs.{IsRun, IsUnrun, Runs};
ghost use Rattle.engines.specs.RecordForms.{record_form, recorded_as};
ghost use Rattle.schedule.specs.Joined.{RecordedFile};

use crate::class_files::read_class_files;
use crate::deadline::{Deadline, Until};
use crate::fault::Fault;
use crate::growth::Growth;
use crate::racing_runs::behind_races;
use crate::recording::{RecordForm, recorded_as};
use crate::seeds::{Seeds, policy_for};
use crate::status::Status;
use crate::stopped_runs::unless_stopped;
use crate::verification::accepted;
use command_line::Run;
use model::{End, Limits, Report, Sink, Source};
use program_runs::policies::run_by_policy;
use program_runs::workers::{Gate, Recorded, run_workers};
use schedule::growing_text::growing_front;
use schedule::report::text;
use schedule::{Schedule, write_schedule};
use std::alloc::{AllocError, Global};
use std::sync::{Arc, Wait};
use std::thread::Threads;
use verifier::Verified;

/// Runs the class files, by workers or, by a policy, by one; makes the schedule file where it is asked for, and where
/// the run does not end normally; writes the report, and answers its status. Where the options ask for the races of
/// the run, a line for each stands before the report, and the status is 1 where there is one, unless it is 3. The gate
/// is told what the workers do, and where a policy wants a seed for which the options don't ask, it draws one, and is
/// told so unless the options have it quiet.
///
/// The first so many of the class files are given, and a library adds the others: the schedule file tells them so.
///
/// A fault of the class files is answered before anything runs, and nothing is written or made then; nor is anything
/// after a want of memory in the run. The file is there before the report is written.
pub fn run_engine<
    R: Threads + Wait + Sync,
    G: Gate + Seeds + Deadline + Growth + Sync,
    S: Source,
    W: Sink,
>(
    rt: &R,
    alloc: Global,
    gate: &G,
    files: &mut [S],
    given: usize,
    options: &Run,
    report: &mut W,
    file: &mut Option<Vec<u8>>,
) -> Result<Status, Fault>
    // The report of a run is written, and nothing else; and the file is that of its schedule.
    ensures ran { IfOk result (λ status. (text : _)
        × Runs (record_form given options.now.as_version)
        (map S.remaining files.old) options.now.limits options.now.options
        (is_some options.now.seconds) options.now.races text (option_map vec_items file.new) status
        × Appends (W.contents report.old) (W.contents report.new) text) }
    ensures asked { IfOk result (λ _. IsTrue (is_some options.now.record) → IsTrue (is_some file.new)) }
    ensures faulty { IfErr result (IsUnrun (record_form given options.now.as_version)
        (map S.remaining files.old) options.now.limits options.now.options
        (is_some options.now.seconds) options.now.races (W.contents report.old) (W.contents report.new)
        (option_map vec_items file.old) (option_map vec_items file.new)) }
    ensures counted { CountsFailure result
        (sum_by S.failures files.old + W.failures report.old)
        (sum_by S.failures files.new + W.failures report.new) }
{
    let read = read_class_files(alloc, files)?;
    let files = read.as_slice();
    let verified = accepted(alloc, files)?;
    let ran = ran(rt, alloc, gate, verified, files, given, options)?;
    *file = ran.file;
    report.write_all(ran.text.as_slice())?;
    Ok(ran.status)
}

/// What a run says: the text of its report, its schedule file where one is made, and its status.
#[derive(Drop)]
pub(crate) struct Outcome {
    pub(crate) text: Vec<u8>,
    pub(crate) file: Option<Vec<u8>>,
    pub(crate) status: Status,
}

/// Runs accepted class files, and makes what is to be written.
fn ran<R: Threads + Wait + Sync, G: Gate + Seeds + Deadline + Growth + Sync>(
    rt: &R,
    alloc: Global,
    gate: &G,
    verified: Verified,
    files: &[Vec<u8>],
    given: usize,
    options: &Run,
) -> Result<Outcome, AllocError>
    requires { IsAccepted (map vec_items files.now) verified }
    ensures run { IfOk result (λ ran. IsRun (record_form given options.now.as_version)
        (map vec_items files.now) options.now.limits options.now.options
        (is_some options.now.seconds) options.now.races ran.text.items (option_map vec_items ran.file)
        ran.status) }
    ensures asked { IfOk result (λ ran. IsTrue (is_some options.now.record) → IsTrue (is_some ran.file)) }
{
    let limits = options.limits.limits();
    let form = RecordForm {
        given,
        as_version: options.as_version,
    };
    tell_growth(alloc, gate, files, form, limits, options)?;
    let recorded = recorded_run(rt, alloc, gate, verified, limits, options)?;
    let outcome = outcome_of(
        alloc,
        files,
        form,
        limits,
        &recorded.report,
        recorded.end,
        &recorded.schedule,
        options.record.is_some(),
    )?;
    let budget = options.options.budget();
    let whole = unless_stopped(alloc, outcome, &recorded.report, recorded.end, budget)?;
    behind_races(alloc, &recorded, options.races, whole)
}

/// Tells the gate what is to be seen of a run while it goes on. The only error is a want of memory.
fn tell_growth<G: Growth>(
    alloc: Global,
    gate: &G,
    files: &[Vec<u8>],
    form: RecordForm,
    limits: Limits,
    options: &Run,
) -> Result<(), AllocError>
    requires { length files.now < 2 ^ 32 }
{
    if options.follow {
        gate.follow();
    }
    if options.races {
        gate.show_none();
    }
    if let Some(path) = &options.record {
        let told = recorded_as(alloc, limits, form, files)?;
        let front = growing_front(alloc, told.as_ref())?;
        gate.record_begins(path.as_str(), front.as_slice());
    }
    Ok(())
}

/// What a run of the class files says that came to this report and this end, by this schedule.
pub(crate) fn outcome_of(
    alloc: Global,
    files: &[Vec<u8>],
    form: RecordForm,
    limits: Limits,
    report: &Report,
    end: End,
    schedule: &Schedule,
    is_recorded: bool,
) -> Result<Outcome, AllocError>
    requires { length files.now < 2 ^ 32 }
    ensures told { IfOk result (λ outcome. outcome.text.items ≡ text_of report.now end) }
    ensures ended { IfOk result (λ outcome. outcome.status ≡ status_of report.now.threads.items end) }
    ensures asked { IfOk result (λ outcome. IsTrue is_recorded → IsTrue (is_some outcome.file)) }
    ensures spelled { IfOk result (λ outcome. IfSome (option_map vec_items outcome.file) (λ bytes.
        RecordedFile bytes (recorded_as limits form (map vec_items files.now)) (events_of schedule.now))) }
{
    let text = text(alloc, report, &end)?;
    let status = Status::of(report, end);
    let file = if is_recorded || status == Status::Returned {
        recorded_file(alloc, is_recorded, files, form, limits, schedule)?
    } else {
        told_file(alloc, files, form, limits, schedule)
    };
    Ok(Outcome { text, file, status })
}

/// The schedule file of a run of the class files, by which it can be told why it ended so; none where memory is
/// wanted for it.
fn told_file(
    alloc: Global,
    files: &[Vec<u8>],
    form: RecordForm,
    limits: Limits,
    schedule: &Schedule,
) -> Option<Vec<u8>>
    requires { length files.now < 2 ^ 32 }
    ensures { IfSome (option_map vec_items result) (λ bytes.
        RecordedFile bytes (recorded_as limits form (map vec_items files.now)) (events_of schedule.now)) }
{
    file_of(alloc, files, form, limits, schedule).ok()
}

/// The record of a run of accepted class files.
fn recorded_run<R: Threads + Wait + Sync, G: Gate + Seeds + Deadline + Growth + Sync>(
    rt: &R,
    alloc: Global,
    gate: &G,
    verified: Verified,
    limits: Limits,
    options: &Run,
) -> Result<Recorded, AllocError>
    ensures recorded { IfOk result (IsRecordWithin (is_some options.now.seconds) verified limits
        (unwrap_or options.now.options.budget 4294967295)) }
    ensures as_asked { IfOk result (λ r. IsRunFor options.now.options.workers options.now.options
        (is_some options.now.seconds) verified limits (unwrap_or options.now.options.budget 4294967295)
        (events_of r.schedule) r.end) }
{
    let verified = Arc::new(alloc, verified)?;
    let until = Until {
        gate,
        seconds: options.seconds,
    };
    let asked = &options.options;
    let budget = asked.budget();
    match asked.workers() {
        Some(workers) => run_workers(
            rt,
            alloc,
            verified,
            limits,
            budget,
            workers as usize,
            asked.workers_quantum(),
            &until,
        ),
        None => {
            let policy = policy_for(gate, asked, options.quiet);
            run_by_policy(alloc, verified, limits, budget, policy, &until)
        }
    }
}

/// The schedule file of a run of the class files, where one is asked for.
pub(crate) fn recorded_file(
    alloc: Global,
    is_recorded: bool,
    files: &[Vec<u8>],
    form: RecordForm,
    limits: Limits,
    schedule: &Schedule,
) -> Result<Option<Vec<u8>>, AllocError>
    requires { length files.now < 2 ^ 32 }
    ensures asked { IfOk result (λ file. is_some file ≡ is_recorded) }
    ensures spelled { IfOk result (λ file. IfSome (option_map vec_items file) (λ bytes.
        RecordedFile bytes (recorded_as limits form (map vec_items files.now)) (events_of schedule.now))) }
{
    if is_recorded {
        Ok(Some(file_of(alloc, files, form, limits, schedule)?))
    } else {
        Ok(None)
    }
}

/// The schedule file of a run of the class files.
pub(crate) fn file_of(
    alloc: Global,
    files: &[Vec<u8>],
    form: RecordForm,
    limits: Limits,
    schedule: &Schedule,
) -> Result<Vec<u8>, AllocError>
    requires { length files.now < 2 ^ 32 }
    ensures { IfOk result (λ bytes. RecordedFile bytes.items
        (recorded_as limits form (map vec_items files.now))
        (events_of schedule.now)) }
{
    let told = recorded_as(alloc, limits, form, files)?;
    let joined = schedule.joined(alloc)?;
    write_schedule(alloc, &joined, told.as_ref())
}
