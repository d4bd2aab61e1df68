//! A sweep over seeds, over any readers and writers.

ghost use Rattle.std.specs.Prelude.{◌≡◌, ◌++◌, ◌+◌, ◌<◌, ◌^◌, IfErr, IfOk, length, map, sum_by, vec_items};
ghost use Rattle.std.specs.Arc.{arc_value};
ghost use Rattle.std.specs.Io.KnownBytes.{Appends};
ghost use Rattle.machine.specs.Machines.{IsProgramOf};
ghost use Rattle.engines.specs.Engines.{CountsFailure};
ghost use Rattle.race_sweeps.specs.race_sweeping.Swept.{AreAccepted};
ghost use Rattle.sweeps.specs.Texts as spec;
ghost use Rattle.engines.specs.Sweeps.{IsSwept, IsUnswept, SweepsBy, SweepsOver, seeded_policy};

use crate::class_files::read_class_files;
use crate::fault::Fault;
use crate::recording::RecordForm;
use crate::repeat_words::repeat_words;
use crate::status::Status;
use crate::sweep_records::outcome_files;
use crate::verification::accepted;
use command_line::{Run, SweepOptions, SweepPolicy};
use linked_code::LinkedProgram;
use model::{Sink, Source};
use program_runs::verified_programs::verified_program;
use race_sweeps::race_sweeping::race_sweep;
use search::run_outcomes::Wanted;
use std::alloc::{AllocError, Global};
use std::sync::{Arc, Wait};
use std::thread::Threads;
use sweeps::{PolicyRuns, SeededPolicy, SideBySide, SweepReport, Watch, sweep_text};
use verifier::Verified;

/// What a sweep over class files is to be, of which the first so many are given, and a library adds the others.
#[derive(Clone, Copy)]
pub struct SweepTask<'a> {
    pub given: usize,
    pub options: &'a Run,
    pub sweep: &'a SweepOptions,
    pub wanted: &'a Wanted,
}

/// What comes of a sweep: its status and, where they are asked for, the schedule files of the first runs of the
/// outcomes.
#[derive(Drop)]
pub struct MadeSweep {
    pub status: Status,
    pub schedules: Vec<Vec<u8>>,
}

/// Runs the class files once for each seed that is asked for, until a run shows what is wanted, or, in a sweep for
/// a race, has a data race (JLS 17.4.5). Writes the races of the last run then, and in each sweep what the runs
/// show, makes the schedule files of the outcomes where they are asked for, and answers these and the status. The watch
/// is told how many runs are done, and may stop the sweep.
///
/// A fault of the class files is answered before anything runs, and nothing is written then; nor is anything after a
/// want of memory in the sweep.
pub fn sweep_engine<R: Threads + Wait + Sync, P: Watch, S: Source, W: Sink>(
    rt: &R,
    alloc: Global,
    watch: &P,
    files: &mut [S],
    task: SweepTask<'_>,
    report: &mut W,
) -> Result<MadeSweep, Fault>
    // What the runs of the seeds show is written, and nothing else.
    ensures swept { IfOk result (λ swept. (text : _)
        × SweepsOver task.entry.given (map S.remaining files.old) task.entry.options.now task.entry.sweep.now (P.may_stop watch.now)
        task.entry.wanted.now text (map vec_items swept.schedules.items) swept.status
        × Appends (W.contents report.old) (W.contents report.new) text) }
    ensures faulty { IfErr result
        (IsUnswept task.entry.given (map S.remaining files.old) task.entry.options.now task.entry.sweep.now (P.may_stop watch.now)
        task.entry.wanted.now (W.contents report.old) (W.contents report.new)) }
    ensures counted { CountsFailure result
        (sum_by S.failures files.old + W.failures report.old)
        (sum_by S.failures files.new + W.failures report.new) }
{
    let read = read_class_files(alloc, files)?;
    let files = read.as_slice();
    let verified = accepted(alloc, files)?;
    let told = swept(rt, alloc, watch, verified, files, task)?;
    report.write_all(told.text.as_slice())?;
    Ok(told.swept)
}

/// What a sweep says: the text of what its runs show, and what comes of it.
#[derive(Drop)]
struct ToldSweep {
    text: Vec<u8>,
    swept: MadeSweep,
}

/// Sweeps over accepted class files, and makes what is to be written. Lets them go.
fn swept<R: Threads + Wait + Sync, P: Watch>(
    rt: &R,
    alloc: Global,
    watch: &P,
    verified: Verified,
    files: &[Vec<u8>],
    task: SweepTask<'_>,
) -> Result<ToldSweep, AllocError>
    requires { length files.now < 2 ^ 32 }
    ensures { IfOk result (λ told. IsSwept task.entry.given (map vec_items files.now) verified task.entry.options.now
        task.entry.sweep.now (P.may_stop watch.now) task.entry.wanted.now told.text.items
        (map vec_items told.swept.schedules.items) told.swept.status) }
{
    let program = verified_program(alloc, &verified)?;
    let verified = Arc::new(alloc, verified)?;
    swept_over(rt, alloc, watch, &verified, &program, files, task)
}

/// The same, where there is all that a run needs of the class files.
fn swept_over<R: Threads + Wait + Sync, P: Watch>(
    rt: &R,
    alloc: Global,
    watch: &P,
    verified: &Arc<Verified>,
    program: &Arc<LinkedProgram>,
    files: &[Vec<u8>],
    task: SweepTask<'_>,
) -> Result<ToldSweep, AllocError>
    requires few { length files.now < 2 ^ 32 }
    requires of { IsProgramOf (arc_value verified.now) (arc_value program.now) }
    ensures { IfOk result (λ told. IsSwept task.entry.given (map vec_items files.now) (arc_value verified.now)
        task.entry.options.now task.entry.sweep.now (P.may_stop watch.now) task.entry.wanted.now told.text.items
        (map vec_items told.swept.schedules.items) told.swept.status) }
{
    let SweepTask {
        given,
        options,
        sweep,
        wanted,
    } = task;
    let policy = seeded_policy(sweep.policy);
    let limits = options.limits.limits();
    let budget = options.options.sweep_budget();
    let runs = PolicyRuns::new(verified, program, limits, budget, policy);
    let workers = options.options.workers().unwrap_or(1);
    let mut runs = SideBySide::new(alloc, runs, workers, sweep.seeds.last);
    let swept = runs_swept(rt, alloc, &mut runs, watch, sweep, wanted)?;
    let words = repeat_words(alloc, options, sweep)?;
    let text = text_of(alloc, &swept, policy, words.as_str())?;
    let form = RecordForm {
        given,
        as_version: options.as_version,
    };
    let is_recorded = options.record.is_some();
    let same = swept.report.tally.same();
    let schedules = outcome_files(alloc, is_recorded, files, form, limits, same)?;
    let status = Status::of_sweep(swept.report.end);
    Ok(ToldSweep {
        text,
        swept: MadeSweep { status, schedules },
    })
}

/// What a sweep has come to, with the lines of the races of its last run, where it is for a race.
#[derive(Drop)]
struct SweptRuns {
    report: SweepReport,
    lines: Vec<u8>,
}

/// Does the runs of a sweep, until one has a data race, or shows what is wanted.
fn runs_swept<R: Threads + Wait + Sync, P: Watch>(
    rt: &R,
    alloc: Global,
    runs: &mut SideBySide<'_>,
    watch: &P,
    sweep: &SweepOptions,
    wanted: &Wanted,
) -> Result<SweptRuns, AllocError>
    requires { AreAccepted runs.old.trees }
    ensures { IfOk result (λ swept. SweepsBy sweep.now.for_race runs.old (P.may_stop watch.now) wanted.now
        sweep.now.seeds.first sweep.now.seeds.last swept.report swept.lines.items) }
{
    let seeds = sweep.seeds;
    if sweep.for_race {
        let found = race_sweep(rt, alloc, runs, watch, seeds.first, seeds.last)?;
        return Ok(SweptRuns {
            report: found.report,
            lines: found.races.lines,
        });
    }
    let report = sweeps::sweep(rt, alloc, runs, watch, wanted, seeds.first, seeds.last)?;
    let lines = Vec::new(alloc);
    Ok(SweptRuns { report, lines })
}

/// The text of what a sweep has come to: the lines of races, and what all runs show.
fn text_of(
    alloc: Global,
    swept: &SweptRuns,
    policy: SeededPolicy,
    words: &str,
) -> Result<Vec<u8>, AllocError>
    ensures { IfOk result (λ text. text.items ≡ swept.now.lines.items
        ++ spec.sweep_text policy swept.now.report.first words.now swept.now.report.tally swept.now.report.end) }
{
    let mut text = Vec::new(alloc);
    text.extend_from_slice(swept.lines.as_slice())?;
    let told = sweep_text(alloc, &swept.report, policy, words)?;
    text.extend_from_slice(told.as_slice())?;
    Ok(text)
}

/// The policy that is asked for.
fn seeded_policy(policy: SweepPolicy) -> SeededPolicy
    ensures { result ≡ seeded_policy policy }
{
    match policy {
        SweepPolicy::Mixed => SeededPolicy::Mixed,
        SweepPolicy::Random => SeededPolicy::Random,
    }
}
