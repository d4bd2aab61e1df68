//! A replay that goes on where its schedule ends, over any readers and writers.

ghost use Rattle.std.specs.Prelude.{◌≡◌, ◌+◌, ◌&&◌, ◌⊎◌, ◌<◌, ◌≤◌, ℕ, length, nat_le, IfOk, IfErr, IsTrue, is_some, map, sum_by, true, vec_items};
ghost use Rattle.std.specs.Option.{option_map};
ghost use Rattle.std.specs.Io.KnownBytes.{Appends};
ghost use Rattle.std.specs.Arc.{arc_value};
ghost use Rattle.model.specs.Accepted.{IsAccepted};
ghost use Rattle.model.specs.Schedule.{events_of};
ghost use Rattle.engines.specs.Continuations.{whole_budget, Continues, ContinuesBy, IsContinued, IsGivenUp, IsUncontinued};
ghost use Rattle.engines.specs.Engines.{CountsFailure};
ghost use Rattle.engines.specs.Opening.{IsAfterFiles, IsOfSchedule, IsOpened};

use crate::fault::Fault;
use crate::opening::{Opened, open};
use crate::place_ends::told;
use crate::recording::{Conditions, RecordForm};
use crate::running::{Outcome, outcome_of, recorded_file};
use crate::status::Status;
use command_line::ThenRun;
use model::{Limits, Sink, Source};
use program_runs::continued_runs::{Continued, run_on};
use program_runs::verified_programs::replay_shown;
use program_runs::workers::Gate;
use schedule::Schedule;
use std::alloc::{AllocError, Global};
use std::sync::Arc;
use verifier::Verified;

/// Runs the class files under the schedule and goes on where it ends; makes the schedule file of the whole where it
/// is asked for, and where the run does not end normally; writes the report, and answers its status.
///
/// Behind the events of the schedule each further event is that of the next thread in turn which has an enabled one,
/// from thread 0 on, and picks the first waiter. All together are at most as many as the budget. Where an event of
/// the schedule that the budget allows is not enabled, or a limit refuses it, the report is that of its replay, and
/// the schedule is the whole that is recorded. What comes before the run, and its faults, are those of
/// `replay_engine`.
pub fn continue_engine<G: Gate, S: Source, W: Sink>(
    alloc: Global,
    gate: &G,
    schedule: &mut S,
    files: &mut [S],
    conditions: &Conditions,
    then_run: &ThenRun,
    report: &mut W,
    file: &mut Option<Vec<u8>>,
) -> Result<Status, Fault>
    // What the run says is written, and nothing else; and the file is that of its schedule.
    ensures continued { IfOk result (λ status. (text : _)
        × Continues (S.remaining schedule.old) (map S.remaining files.old) conditions.now
        then_run.now
        text (option_map vec_items file.new) status
        × Appends (W.contents report.old) (W.contents report.new) text) }
    ensures asked { IfOk result (λ _. IsTrue (is_some then_run.now.record) → IsTrue (is_some file.new)) }
    ensures faulty { IfErr result (IsUncontinued (S.remaining schedule.old) (map S.remaining files.old) conditions.now
        then_run.now (W.contents report.old) (W.contents report.new)
        (option_map vec_items file.old) (option_map vec_items file.new)) }
    ensures schedule_first { IfErr result (λ fault. IsOfSchedule fault → (files.new ≡ files.old)
        ⊎ IsAfterFiles (S.remaining schedule.old) (map S.remaining files.old) conditions.now fault) }
    ensures counted { CountsFailure result
        (S.failures schedule.old + sum_by S.failures files.old + W.failures report.old)
        (S.failures schedule.new + sum_by S.failures files.new + W.failures report.new) }
{
    let opened = open(alloc, schedule, files, conditions)?;
    let ran = ran_by(alloc, gate, opened, conditions.given, then_run)?;
    *file = ran.file;
    report.write_all(ran.text.as_slice())?;
    Ok(ran.status)
}

/// Runs class files that were opened under their schedule, goes on where it ends, unless it gives up at a place within
/// the budget, and makes what is to be written. Lets go what was opened.
fn ran_by<G: Gate>(
    alloc: Global,
    gate: &G,
    opened: Opened,
    given: usize,
    then_run: &ThenRun,
) -> Result<Outcome, AllocError>
    requires { IsAccepted (map vec_items opened.files.items) (arc_value opened.verified) }
    ensures run { IfOk result (λ ran. (bytes : _) (options : _)
        → options.given ≡ given
        → IsOpened bytes (map vec_items opened.files.items) options (arc_value opened.verified)
        (events_of opened.schedule) opened.limits opened.gives_up
        → ContinuesBy bytes (map vec_items opened.files.items) options then_run.now ran.text.items
        (option_map vec_items ran.file) ran.status) }
    ensures asked { IfOk result (λ ran. IsTrue (is_some then_run.now.record) → IsTrue (is_some ran.file)) }
{
    if gives_up_within(&opened, then_run.budget()) {
        return ran_up_to(alloc, gate, &opened, given, then_run);
    }
    ran_on(
        alloc,
        gate,
        opened.verified,
        &opened.schedule,
        opened.files.as_slice(),
        given,
        opened.limits,
        then_run,
    )
}

/// Whether a schedule gives up at a place before the budget ends the run.
fn gives_up_within(opened: &Opened, budget: u32) -> bool
    ensures { result ≡ (opened.now.gives_up && nat_le (length (events_of opened.now.schedule)) budget) }
{
    opened.gives_up && opened.schedule.count() <= u64::from(budget)
}

/// Runs class files that were opened up to the place at which their schedule gives up, and makes what is to be written.
fn ran_up_to<G: Gate>(
    alloc: Global,
    gate: &G,
    opened: &Opened,
    given: usize,
    then_run: &ThenRun,
) -> Result<Outcome, AllocError>
    requires { IsAccepted (map vec_items opened.now.files.items) (arc_value opened.now.verified) }
    ensures run { IfOk result (λ ran. (bytes : _) (options : _)
        → options.given ≡ given
        → IsOpened bytes (map vec_items opened.now.files.items) options (arc_value opened.now.verified)
        (events_of opened.now.schedule) opened.now.limits true
        → length (events_of opened.now.schedule) ≤ whole_budget then_run.now
        → IsGivenUp bytes (map vec_items opened.now.files.items) options then_run.now ran.text.items
        (option_map vec_items ran.file) ran.status) }
    ensures asked { IfOk result (λ ran. IsTrue (is_some then_run.now.record) → IsTrue (is_some ran.file)) }
{
    let (report, end) = replay_shown(
        alloc,
        &opened.verified,
        &opened.schedule,
        opened.limits,
        gate,
    )?;
    let (text, status) = told(alloc, &report, end, true)?;
    let form = RecordForm {
        given,
        as_version: then_run.as_version,
    };
    let file = recorded_file(
        alloc,
        then_run.record.is_some(),
        opened.files.as_slice(),
        form,
        opened.limits,
        &opened.schedule,
    )?;
    Ok(Outcome { text, file, status })
}

/// Runs accepted class files under the schedule and goes on where it ends, and makes what is to be written.
fn ran_on<G: Gate>(
    alloc: Global,
    gate: &G,
    verified: Arc<Verified>,
    schedule: &Schedule,
    files: &[Vec<u8>],
    given: usize,
    limits: Limits,
    then_run: &ThenRun,
) -> Result<Outcome, AllocError>
    requires { IsAccepted (map vec_items files.now) (arc_value verified) }
    ensures run { IfOk result (λ ran. (bytes : _) (options : _) (gives_up : _)
        → options.given ≡ given
        → IsOpened bytes (map vec_items files.now) options (arc_value verified) (events_of schedule.now) limits gives_up
        → (IsTrue gives_up → whole_budget then_run.now < length (events_of schedule.now))
        → IsContinued bytes (map vec_items files.now) options then_run.now ran.text.items
        (option_map vec_items ran.file) ran.status) }
    ensures asked { IfOk result (λ ran. IsTrue (is_some then_run.now.record) → IsTrue (is_some ran.file)) }
{
    let form = RecordForm {
        given,
        as_version: then_run.as_version,
    };
    let is_recorded = then_run.record.is_some();
    match run_on(alloc, verified, schedule, limits, then_run.budget(), gate)? {
        Continued::Whole(run) => {
            outcome_of(
                alloc,
                files,
                form,
                limits,
                &run.report,
                run.end,
                &run.schedule,
                is_recorded,
            )
        }
        Continued::Part(report, end) => {
            outcome_of(
                alloc,
                files,
                form,
                limits,
                &report,
                end,
                schedule,
                is_recorded,
            )
        }
    }
}
