//! The search over all schedules.

ghost use Rattle.std.specs.Prelude.{◌≡◌, ◌<◌, ◌≤◌, length, IfOk};
ghost use Rattle.std.specs.Arc.{arc_value};
ghost use Rattle.machine.specs.Machines.{IsProgramOf};
ghost use Rattle.search.specs.Verdicts.{Says};
ghost use Rattle.search.specs.RacyStates.{HasRaceAt, IsNumberIf, IsScheduleIf, KeepsRace, TellsRace, TellsRaceAt};
ghost use Rattle.search.specs.Visits.{nothing_seen, HasVisited};
ghost use Rattle.search.specs.Endless.{IsFoundAt};

use crate::kinds::{Goal, Kinds};
use crate::machines::opened;
use crate::met_states::{endless_states_are_told, kinds_are_met, searches_are_whole};
use crate::progress::Progress;
use crate::run_outcomes::Outcomes;
use crate::states::{States, Walk};
use crate::visiting::{Asked, Seen, SeenStates, Visit, visit_state};
use linked_code::LinkedProgram;
use linker::Linked;
use model::Limits;
use next_accesses::access_tables::AccessTables;
use racing_threads::lasting_races::races_are_told_by_words;
use schedule::Schedule;
use search_laws::kept_states::schedules_are_complete;
use std::alloc::{AllocError, Global};
use std::sync::Arc;

/// What a search answers.
#[derive(Drop)]
pub enum Verdict {
    /// A schedule of a run that ends with a wanted outcome, or comes to a state of a kind that is to be found, in as
    /// few entries as its events can have.
    Found(Schedule),
    /// The outcomes of all runs that end, and the kinds of the states that any run comes to. None is to be found.
    Complete(Outcomes, Kinds),
    /// Nothing: there are more states than were allowed, a limit forbids an event, or 65,535 threads wait to be picked.
    GaveUp,
}

/// What a search answers, and how many states it met.
#[derive(Drop)]
pub struct Searched {
    pub verdict: Verdict,
    pub states: u32,
    /// Of a complete answer with races a schedule to the first racy state that was met.
    pub race: Option<Schedule>,
}

/// A state by its number from which no run ends, as it is to be found: a schedule that leads there. The only error is a
/// want of memory.
fn found_endless(asked: &Asked<'_>, states: &States, number: u32) -> Result<Verdict, AllocError>
    requires { number < length states.now.schedules }
    ensures { IfOk result (IsFoundAt states.now number) }
{
    let schedule = states.schedule(number)?;
    let joined = schedule.joined(asked.alloc)?;
    Ok(Verdict::Found(joined))
}

/// What a search answers all of whose states have been visited: those below a number. The only error is a want of
/// memory.
fn completed(
    asked: &Asked<'_>,
    states: &States,
    seen: Seen,
    below: u32,
) -> Result<Verdict, AllocError>
    requires visited { HasVisited asked.now.linked.now states.now.limits asked.now.goal.now states.now seen below }
    requires all { length states.now.schedules ≤ below }
    ensures says { IfOk result (λ v. (may_stop : _) (most : _) → Says asked.now.linked.now states.now.limits
        asked.now.goal.now may_stop most (length states.now.schedules) v) }
    ensures race { IfOk result (KeepsRace seen.kinds) }
{
    searches_are_whole();
    schedules_are_complete();
    races_are_told_by_words();
    kinds_are_met();
    endless_states_are_told();
    let Seen { outcomes, kinds } = seen;
    match states.endless_number()? {
        None => {
            let none = Kinds::endless(false);
            Ok(Verdict::Complete(outcomes, kinds.and(none)))
        }
        Some(number) => {
            let endless = Kinds::endless(true);
            if asked.goal.is_among(endless) {
                return found_endless(asked, states, number);
            }
            Ok(Verdict::Complete(outcomes, kinds.and(endless)))
        }
    }
}

/// The same with the first racy state of those that were visited, by its number.
fn answered(
    asked: &Asked<'_>,
    states: &States,
    visited: SeenStates,
    below: u32,
) -> Result<(Verdict, Option<u32>), AllocError>
    requires visited { HasVisited asked.now.linked.now states.now.limits asked.now.goal.now states.now visited.seen
        below }
    requires race { HasRaceAt asked.now.linked.now states.now.limits states.now visited.seen.kinds.race visited.race }
    requires all { length states.now.schedules ≤ below }
    ensures says { IfOk result (λ r. (may_stop : _) (most : _) → Says asked.now.linked.now states.now.limits
        asked.now.goal.now may_stop most (length states.now.schedules) r.0) }
    ensures race { IfOk result (λ r. TellsRaceAt asked.now.linked.now states.now.limits states.now r.0 r.1) }
{
    let SeenStates { seen, race } = visited;
    let verdict = completed(asked, states, seen, below)?;
    Ok((verdict, race))
}

/// Visits states from the opening state on, up to so many, and tells how far it has come, and the first racy state by
/// its number.
fn visit_all<P: Progress>(
    progress: &P,
    asked: &Asked<'_>,
    walk: Walk,
) -> Result<(Verdict, Option<u32>, Walk), AllocError>
    requires tables { asked.now.tables.linked.now ≡ asked.now.linked.now }
    requires visited { HasVisited asked.now.linked.now walk.states.limits asked.now.goal.now walk.states nothing_seen
        0 }
    requires few { 1 ≤ asked.now.most → length walk.states.schedules ≤ asked.now.most }
    ensures says { IfOk result (λ r. Says asked.now.linked.now walk.states.limits asked.now.goal.now
        (P.may_stop progress.now) asked.now.most (length r.2.states.schedules) r.0) }
    ensures race { IfOk result (λ r. TellsRaceAt asked.now.linked.now walk.states.limits r.2.states r.0 r.1) }
    ensures few { IfOk result (λ r. 1 ≤ asked.now.most → length r.2.states.schedules ≤ asked.now.most) }
{
    let mut walk = walk;
    let mut visited = SeenStates::new(asked.alloc);
    'states: for number in 0..asked.most {
        if number >= walk.states.len() {
            let (verdict, race) = answered(asked, &walk.states, visited, number)?;
            return Ok((verdict, race, walk));
        }
        progress.states_met(walk.states.len());
        if progress.is_over() {
            return Ok((Verdict::GaveUp, None, walk));
        }
        let (visit, further) = visit_state(asked, walk, &mut visited, number)?;
        walk = further;
        match visit {
            Visit::Visited => {}
            Visit::Found(schedule) => return Ok((Verdict::Found(schedule), None, walk)),
            Visit::GaveUp => return Ok((Verdict::GaveUp, None, walk)),
        }
    }
    if walk.states.len() > asked.most {
        return Ok((Verdict::GaveUp, None, walk));
    }
    let (verdict, race) = answered(asked, &walk.states, visited, asked.most)?;
    Ok((verdict, race, walk))
}

/// The schedule of the state of a number, if one is told. The only error is a want of memory.
fn race_schedule(states: &States, race: Option<u32>) -> Result<Option<Schedule>, AllocError>
    requires { IsNumberIf states.now race }
    ensures { IfOk result (IsScheduleIf states.now race) }
{
    let Some(number) = race else {
        return Ok(None);
    };
    let schedule = states.schedule(number)?;
    Ok(Some(schedule))
}

/// Searches all schedules of a program (JVMS 2.5, 2.6, 5.5, chapter 6; JLS 17), which is that of the linked classes,
/// as far as so many states, for a run that ends with a wanted outcome, or comes to a state of a kind that is to be
/// found. Meanwhile it tells how far it has come. The only error is a want of memory.
pub fn search<P: Progress>(
    alloc: Global,
    progress: &P,
    linked: &Linked,
    program: Arc<LinkedProgram>,
    limits: Limits,
    goal: &Goal,
    most: u32,
) -> Result<Searched, AllocError>
    requires { IsProgramOf linked.now (arc_value program) }
    ensures says { IfOk result (λ s. Says linked.now limits goal.now (P.may_stop progress.now) most s.states
        s.verdict) }
    ensures race { IfOk result (λ s. TellsRace linked.now limits s.verdict s.race) }
    ensures few { IfOk result (λ s. 1 ≤ most → s.states ≤ most) }
{
    let machine = opened(alloc, Arc::try_clone(&program)?, limits)?;
    let states = States::new(alloc, program, limits, &machine)?;
    let walk = Walk {
        states,
        machine,
        moved: false,
    };
    let asked = Asked {
        alloc,
        linked,
        tables: AccessTables::new(alloc, linked)?,
        goal,
        most,
    };
    let (verdict, race, walk) = visit_all(progress, &asked, walk)?;
    let race = race_schedule(&walk.states, race)?;
    Ok(Searched {
        verdict,
        states: walk.states.len(),
        race,
    })
}
