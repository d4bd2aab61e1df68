//! A search, and the report of the run that it finds.

ghost use Rattle.std.specs.Prelude.{◌≡◌, ◌≤◌, IfOk};
ghost use Rattle.std.specs.Arc.{arc_value};
ghost use Rattle.search.specs.OwnEdges as own;
ghost use Rattle.machine.specs.Machines.{IsProgramOf};
ghost use Rattle.search.specs.search_reports.Answers.{Answers, IsAnswerTo, IsRaceKept, IsRunTold, TellsRaceOf};

use crate::kinds::Goal;
use crate::own_edges::names_own_edges;
use crate::search_reports::answers::{Answer, SearchReport};
use crate::{Progress, Verdict, search};
use hierarchy::ClassSet;
use linked_code::LinkedProgram;
use linker::Linked;
use machine::machine_replay::replay;
use model::{End, Limits};
use schedule::Schedule;
use std::alloc::{AllocError, Global};
use std::sync::Arc;

/// The schedule of a run, with the run's report. The only error is a want of memory.
fn found(
    alloc: Global,
    classes: &ClassSet,
    program: Arc<LinkedProgram>,
    limits: Limits,
    schedule: Schedule,
) -> Result<Answer, AllocError>
    requires { IsProgramOf classes.now (arc_value program) }
    ensures { IfOk result (IsRunTold classes.now limits schedule) }
{
    let (report, end) = replay(alloc, classes, program, &schedule, limits)?;
    match end {
        End::Quiet => Ok(Answer::Found(schedule, report, End::Quiet)),
        End::Schedule => Ok(Answer::Found(schedule, report, End::Schedule)),
        // an event of such a run is refused for want of memory alone
        End::Budget | End::NotEnabled(_) | End::Refused(_, _) => Err(AllocError),
    }
}

/// What a search says, with the report of the run that it finds. The only error is a want of memory.
fn answer_to(
    alloc: Global,
    classes: &ClassSet,
    program: Arc<LinkedProgram>,
    limits: Limits,
    verdict: Verdict,
) -> Result<Answer, AllocError>
    requires { IsProgramOf classes.now (arc_value program) }
    ensures answers { IfOk result (IsAnswerTo classes.now limits verdict) }
    ensures race { IfOk result (IsRaceKept classes.now limits verdict) }
{
    match verdict {
        Verdict::Found(schedule) => found(alloc, classes, program, limits, schedule),
        Verdict::Complete(outcomes, kinds) => Ok(Answer::Complete(outcomes, kinds)),
        Verdict::GaveUp => Ok(Answer::GaveUp),
    }
}

/// Searches all schedules of a program (JVMS 2.5, 2.6, 5.5, chapter 6; JLS 17), which is that of the linked classes,
/// as far as so many states, for a run that ends with a wanted outcome, or comes to a state of a kind that is to be
/// found. Meanwhile it tells how far it has come. The only error is a want of memory.
pub fn search_report<P: Progress>(
    alloc: Global,
    progress: &P,
    linked: &Linked,
    program: Arc<LinkedProgram>,
    limits: Limits,
    goal: &Goal,
    most: u32,
) -> Result<SearchReport, AllocError>
    requires { IsProgramOf linked.now (arc_value program) }
    ensures answers { IfOk result (λ r. Answers linked.now limits goal.now (P.may_stop progress.now) most r.states
        r.answer) }
    ensures race { IfOk result (λ r. TellsRaceOf linked.now limits r.answer r.race) }
    ensures own_edges { IfOk result (λ r. r.own_edges ≡ own.names_own_edges linked.now) }
    ensures few { IfOk result (λ r. 1 ≤ most → r.states ≤ most) }
{
    let searched_program = Arc::try_clone(&program)?;
    let searched = search(
        alloc,
        progress,
        linked,
        searched_program,
        limits,
        goal,
        most,
    )?;
    let states = searched.states;
    let answer = answer_to(alloc, linked.set(), program, limits, searched.verdict)?;
    Ok(SearchReport {
        answer,
        states,
        race: searched.race,
        own_edges: names_own_edges(linked),
    })
}
