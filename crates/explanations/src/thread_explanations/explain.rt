//! The text of what the threads of a run are about.

ghost use Rattle.std.specs.Prelude.{◌≡◌, ◌++◌, IfOk, OnOk, codes, map, vec_items};
ghost use Rattle.std.specs.Arc.{arc_value};
ghost use Rattle.std.specs.List.{flat_map};
ghost use Rattle.listings.specs.printed_names.Printed.{printed};
ghost use Rattle.model.specs.Report.{end_state_of, line};
ghost use Rattle.model.specs.Schedule.{events_of};
ghost use Rattle.machine.specs.Machines.{IsOfAccepted, IsProgramOf, Opens};
ghost use Rattle.explanations.specs.thread_explanations.Explained.{ExplainsRun, indented, told_of, told_of_all};
ghost use Rattle.explanations.specs.thread_explanations.Deadlocks.{deadlock_words};
ghost use Rattle.explanations.specs.thread_explanations.Details.{lines_at};

use crate::thread_explanations::deadlocks::push_deadlocks;
use crate::thread_explanations::details::{Details, details_of};
use linked_code::LinkedProgram;
use linker::Linked;
use listings::printed_names::push_printed;
use machine::Machine;
use machine::machine_replay::report_after;
use machine::schedule_runs::run_schedule;
use machine_state::shown_runs::runs_are_opened;
use model::{EndState, Limits};
use run_laws::soundness::no_event_is_wrong;
use run_laws::word_reports::reports_of_words;
use schedule::Schedule;
use schedule::report::{push_line, push_thread};
use std::alloc::{AllocError, Global};
use std::sync::Arc;

/// A line that is indented by two spaces.
fn push_indented_line(text: &mut Vec<u8>, words: &[u8]) -> Result<(), AllocError>
    ensures { OnOk result (text.new.items ≡ text.old.items ++ line (codes "  " ++ printed words.now)) }
{
    text.extend_from_slice(b"  ")?;
    push_printed(text, words)?;
    push_line(text, b"")
}

/// Lines that are.
fn push_indented(text: &mut Vec<u8>, lines: &[Vec<u8>]) -> Result<(), AllocError>
    ensures { OnOk result (text.new.items ≡ text.old.items ++ indented (map vec_items lines.now)) }
{
    for line in lines {
        push_indented_line(text, line)?;
    }
    Ok(())
}

/// A thread that did not end normally: its line of the report, with these lines below it.
fn push_told(
    alloc: Global,
    text: &mut Vec<u8>,
    thread: usize,
    end: &EndState,
    lines: &[Vec<u8>],
) -> Result<(), AllocError>
    ensures { OnOk result (text.new.items
        ≡ text.old.items ++ told_of thread (end_state_of end.now) (map vec_items lines.now)) }
{
    if let EndState::Ended = end {
        return Ok(());
    }
    push_thread(alloc, text, thread, end)?;
    push_indented(text, lines)
}

/// The lines of the thread of a number.
fn lines_at(details: &Details, thread: usize) -> &[Vec<u8>]
    ensures { map vec_items result.now ≡ lines_at details.now thread }
{
    match details.threads.get(thread) {
        Some(lines) => lines,
        None => &[],
    }
}

/// The threads that stand so.
fn push_threads(
    alloc: Global,
    text: &mut Vec<u8>,
    ends: &[EndState],
    details: &Details,
) -> Result<(), AllocError>
    ensures { OnOk result (text.new.items
        ≡ text.old.items ++ told_of_all 0 (map end_state_of ends.now) (lines_at details.now)) }
{
    for (thread, end) in ends.iter().enumerate() {
        push_told(alloc, text, thread, end, lines_at(details, thread))?;
    }
    Ok(())
}

/// The text of threads that stand so.
fn text_of(alloc: Global, ends: &[EndState], details: &Details) -> Result<Vec<u8>, AllocError>
    ensures { IfOk result (λ text. text.items ≡ told_of_all 0 (map end_state_of ends.now) (lines_at details.now)
        ++ flat_map (λ cycle.
        line (deadlock_words details.now.waits.items ends.now cycle)) (map vec_items details.now.cycles.items)) }
{
    let mut text = Vec::new(alloc);
    push_threads(alloc, &mut text, ends, details)?;
    push_deadlocks(&mut text, &details.waits, ends, &details.cycles)?;
    Ok(text)
}

/// The machine of a program before any event.
fn open_machine(
    alloc: Global,
    program: &Arc<LinkedProgram>,
    limits: Limits,
) -> Result<Machine, AllocError>
    requires { IsOfAccepted (arc_value program.now) }
    ensures { IfOk result (Opens (arc_value program.now) limits) }
{
    Machine::open(alloc, Arc::try_clone(program)?, limits)
}

/// What the threads are about that did not end normally, after the events of a schedule, as far as they go, under the
/// limits of the run (JVMS 2.10, 5.5; JLS 17). The program is that of the linked class files, which are accepted. Of
/// each thread stands its line of the report, and below it indented lines: where its frames stand, or stood when it
/// threw the exception that ended it, and what it waits for. A line for each deadlock stands behind them. Of a run in
/// which all threads ended normally nothing is told. The only error is a want of memory.
pub fn explain_threads(
    alloc: Global,
    linked: &Linked,
    program: &Arc<LinkedProgram>,
    schedule: &Schedule,
    limits: Limits,
) -> Result<Vec<u8>, AllocError>
    requires { IsProgramOf linked.now (arc_value program.now) }
    ensures { IfOk result (λ text. ExplainsRun linked.now (events_of schedule.now) limits text.items) }
{
    runs_are_opened();
    reports_of_words();
    no_event_is_wrong();
    let mut machine = open_machine(alloc, program, limits)?;
    let (done, why) = run_schedule(&mut machine, schedule);
    let (report, _) = report_after(alloc, &machine, linked.set(), done, why)?;
    let shared = machine.into_shared();
    let ends = &report.threads;
    let details = details_of(alloc, linked, program, schedule, limits, &shared, ends)?;
    text_of(alloc, ends, &details)
}
