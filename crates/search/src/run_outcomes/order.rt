//! The order of outcomes.

ghost use Rattle.std.specs.Prelude.{◌≡◌, map};
ghost use Rattle.std.specs.Cmp.Lexicographic.{slice_cmp};
ghost use Rattle.model.specs.Report.{end_state_of};
ghost use Rattle.search.specs.run_outcomes.Outcomes.{told_by, rank_of, exception_of, end_cmp, outcome_cmp};

use crate::run_outcomes::lines::compare_printed;
use crate::run_outcomes::outcomes::Outcome;
use model::EndState;
use std::cmp::Ordering;

fn rank(end: &EndState) -> u8
    ensures { result ≡ rank_of (end_state_of end.now) }
{
    match end {
        EndState::Ended => 0,
        EndState::Threw(_) => 1,
        EndState::Blocked => 2,
        EndState::Waiting => 3,
        EndState::Joining => 4,
        EndState::Initialising => 5,
        EndState::Runnable => 6,
    }
}

/// The name of the class of the exception that ended a thread; empty where none did.
fn exception(end: &EndState) -> &[u8]
    ensures { result.now ≡ exception_of (end_state_of end.now) }
{
    match end {
        EndState::Threw(name) => name.as_slice(),
        EndState::Ended
        | EndState::Blocked
        | EndState::Waiting
        | EndState::Joining
        | EndState::Initialising
        | EndState::Runnable => &[],
    }
}

fn compare_ends(one: &EndState, other: &EndState) -> Ordering
    ensures { result ≡ end_cmp (end_state_of one.now) (end_state_of other.now) }
{
    match rank(one).cmp(&rank(other)) {
        Ordering::Equal => exception(one).cmp(exception(other)),
        Ordering::Less => Ordering::Less,
        Ordering::Greater => Ordering::Greater,
    }
}

fn compare_threads(one: &[EndState], other: &[EndState]) -> Ordering
    ensures { result ≡ slice_cmp end_cmp (map end_state_of one.now) (map end_state_of other.now) }
{
    'threads: for at in 0..one.len().min(other.len()) {
        match compare_ends(&one[at], &other[at]) {
            Ordering::Equal => {}
            Ordering::Less => return Ordering::Less,
            Ordering::Greater => return Ordering::Greater,
        }
    }
    one.len().cmp(&other.len())
}

/// Which of two outcomes comes first in a list.
pub(crate) fn compare(one: &Outcome, other: &Outcome) -> Ordering
    ensures { result ≡ outcome_cmp (told_by one.now) (told_by other.now) }
{
    match compare_printed(&one.printed, &other.printed) {
        Ordering::Equal => compare_threads(&one.threads, &other.threads),
        Ordering::Less => Ordering::Less,
        Ordering::Greater => Ordering::Greater,
    }
}
