//! What a search does at a state.

ghost use Rattle.std.specs.Prelude.{◌≡◌, ◌<◌, ◌≤◌, length, IfOk};
ghost use Rattle.search.specs.RacyStates.{HasRaceAfter, HasRaceAt, first_race};
ghost use Rattle.search.specs.Visits.{nothing_seen, nothing_visited, HasOutcomeAt, HasVisited, IsSeenOr};
ghost use Rattle.search.specs.Visits.{ListsOr, ShowsAt, Visits};

use crate::expanding::expand;
use crate::kinds::{Goal, Kinds};
use crate::machines::outcome_of;
use crate::met_states::{met_states_are_kept, moving_states_are_not_quiet};
use crate::run_outcomes::{Outcome, Outcomes};
use crate::state_kinds::kinds_at;
use crate::states::Walk;
use linker::Linked;
use next_accesses::access_tables::AccessTables;
use schedule::Schedule;
use std::alloc::{AllocError, Global};

/// What a search is to find among the schedules of linked classes, and how many states there may be.
#[derive(Drop)]
pub(crate) struct Asked<'a> {
    pub(crate) alloc: Global,
    pub(crate) linked: &'a Linked,
    /// Those of the classes.
    pub(crate) tables: AccessTables<'a>,
    pub(crate) goal: &'a Goal,
    pub(crate) most: u32,
}

/// What the states that were visited have shown.
#[derive(Drop)]
pub(crate) struct Seen {
    pub(crate) outcomes: Outcomes,
    pub(crate) kinds: Kinds,
}

/// What they have shown, and the first of them that is racy, by its number.
#[derive(Drop)]
pub(crate) struct SeenStates {
    pub(crate) seen: Seen,
    pub(crate) race: Option<u32>,
}

/// What a search comes to at a state.
#[derive(Drop)]
pub(crate) enum Visit {
    /// What the state shows is listed, and the states to which events lead from it are met.
    Visited,
    /// The state is to be found, by this schedule.
    Found(Schedule),
    GaveUp,
}

impl Seen {
    /// Nothing was seen.
    pub(crate) fn new(alloc: Global) -> Seen
        ensures { result ≡ nothing_seen }
    {
        Seen {
            outcomes: Outcomes::new(alloc),
            kinds: Kinds::none(),
        }
    }
}

impl SeenStates {
    /// None was visited.
    pub(crate) fn new(alloc: Global) -> SeenStates
        ensures { result ≡ nothing_visited }
    {
        SeenStates {
            seen: Seen::new(alloc),
            race: None,
        }
    }
}

/// The first racy state: the one that was told, or else the one of this number, if it is racy.
fn first_race(race: Option<u32>, is_racy: bool, number: u32) -> Option<u32>
    ensures { result ≡ first_race race is_racy number }
{
    match race {
        Some(first) => Some(first),
        None if is_racy => Some(number),
        None => None,
    }
}

/// The outcome of the state in which the machine of a walk is, if no thread may step there. The only error is a want
/// of memory.
fn outcome_at(asked: &Asked<'_>, walk: &Walk) -> Result<Option<Outcome>, AllocError>
    ensures { IfOk result (HasOutcomeAt asked.now.linked.now walk.now) }
{
    moving_states_are_not_quiet();
    if walk.moved {
        return Ok(None);
    }
    let outcome = outcome_of(asked.alloc, asked.linked.set(), &walk.machine)?;
    Ok(outcome)
}

/// Lists the outcome of a state, if there is one, unless it is to be found: then the answer is true. The only error is
/// a want of memory.
fn is_outcome_found(
    asked: &Asked<'_>,
    outcomes: &mut Outcomes,
    outcome: Option<Outcome>,
) -> Result<bool, AllocError>
    ensures { IfOk result (λ found. ListsOr asked.now.goal.now outcome found outcomes.old outcomes.new) }
{
    let Some(outcome) = outcome else {
        return Ok(false);
    };
    if asked.goal.is_outcome(asked.alloc, &outcome)? {
        return Ok(true);
    }
    outcomes.add(outcome)?;
    Ok(false)
}

/// Lists what a state shows, unless it is to be found: then the answer is true. The only error is a want of memory.
fn is_found(
    asked: &Asked<'_>,
    seen: &mut Seen,
    outcome: Option<Outcome>,
    kinds: Kinds,
) -> Result<bool, AllocError>
    ensures { IfOk result (λ found. IsSeenOr asked.now.goal.now outcome kinds found seen.old seen.new) }
{
    if asked.goal.is_among(kinds) {
        return Ok(true);
    }
    seen.kinds = seen.kinds.and(kinds);
    is_outcome_found(asked, &mut seen.outcomes, outcome)
}

/// Lists what the state of a number shows, in which the machine of a walk is, unless it is to be found: then the answer
/// is true. The only error is a want of memory.
fn is_found_at(
    asked: &Asked<'_>,
    states: &mut SeenStates,
    walk: &Walk,
    number: u32,
) -> Result<bool, AllocError>
    requires { asked.now.tables.linked.now ≡ asked.now.linked.now }
    ensures { IfOk result (λ found. (outcome : _) × (kinds : _) × (ShowsAt asked.now.linked.now walk.now outcome kinds
        × IsSeenOr asked.now.goal.now outcome kinds found states.old.seen states.new.seen
        × (states.new.race ≡ first_race states.old.race kinds.race number))) }
{
    let outcome = outcome_at(asked, walk)?;
    let kinds = kinds_at(asked.alloc, &asked.tables, &walk.machine, &outcome)?;
    states.race = first_race(states.race, kinds.race, number);
    let found = is_found(asked, &mut states.seen, outcome, kinds)?;
    Ok(found)
}

/// Visits the state of a number, all below which have been visited. The only error is a want of memory.
pub(crate) fn visit_state(
    asked: &Asked<'_>,
    walk: Walk,
    states: &mut SeenStates,
    number: u32,
) -> Result<(Visit, Walk), AllocError>
    requires tables { asked.now.tables.linked.now ≡ asked.now.linked.now }
    requires visited { HasVisited asked.now.linked.now walk.states.limits asked.now.goal.now walk.states
        states.old.seen number }
    requires race { HasRaceAt asked.now.linked.now walk.states.limits walk.states states.old.seen.kinds.race
        states.old.race }
    requires number { number < length walk.states.schedules }
    ensures visits { IfOk result (λ r.
        Visits asked.now.linked.now walk.states.limits asked.now.goal.now asked.now.most number r.0 r.1.states
        states.new.seen) }
    ensures race { IfOk result (λ r. HasRaceAfter asked.now.linked.now walk.states.limits r.0 r.1.states states.new) }
    ensures few { IfOk result (λ r. length walk.states.schedules ≤ asked.now.most
        → length r.1.states.schedules ≤ asked.now.most) }
{
    met_states_are_kept();
    let (went_on, walk) = expand(asked.alloc, walk, number, asked.most)?;
    if !went_on {
        return Ok((Visit::GaveUp, walk));
    }
    if is_found_at(asked, states, &walk, number)? {
        let schedule = walk.states.schedule(number)?;
        return Ok((Visit::Found(schedule.joined(asked.alloc)?), walk));
    }
    Ok((Visit::Visited, walk))
}
