//! What the states that a search keeps tell of all runs. Each function here is a theorem, and does nothing.
//!
//! A search keeps states by numbers, and edges between them (`Graph`). A kept state is expanded where each of its
//! events, with each pick, leads past events that are alone, of any threads and finitely many, to a state like a kept
//! one, and the edge is there. Where such a stretch ends is free. So nothing is asked of circles of states.
//!
//! # Proved
//!
//! Of accepted files, and of a search whose opening state is followed past events that are alone to a kept one
//! (`IsSearch`), whatever it is that counts as a conflict:
//!
//! - The law: where each kept state to which edges lead from a kept one is expanded, events that are alone lead from
//!   the end of each run from that one to a state like one of those (`runs_are_followed`).
//! - Where all kept states are expanded (`IsWholeSearch`), each state of a run from the opening state is followed so
//!   (`all_states_are_followed`), and a kept state shows: the outcome of each run that ends (`all_outcomes_are_met`); a
//!   thread that has ended by an exception, with its class (`exceptions_are_met`); a thread that has not ended and has
//!   no event any more, whatever the others do (`stuck_threads_are_met`); threads that wait in a circle, each for a
//!   monitor that the next one owns or a class that it initialises (`circles_are_met`); two threads in conflict, where
//!   events of others keep the conflict (`conflicts_are_met`); and whatever a test tells that events keep and words
//!   tell (`what_lasts_is_met`).
//! - A circle stays, whatever events follow, and no thread of it has an event (`circles_stay_for_ever`). A thread that
//!   waits for another one waits for it, and has no event, until that one has (`waiting_threads_are_held_back`).
//! - A state is endless where no run from it ends. A kept state is, if all to which edges lead from it are expanded and
//!   none is quiet (`traps_are_endless`). If all kept states are expanded, and each edge is one of events, a run to an
//!   endless state has a kept state from which no edges lead to a quiet one (`endless_states_are_trapped`).
//! - A search that goes past local events, as `searches` of `run_laws` has it, is such a search, and lists the outcomes
//!   of its quiet states (`searches_past_local_events_are_whole`).
//! - A search may keep schedules, tell states apart by their words, and go past events that are alone, with any test
//!   for the conflict that words tell. Where each event from where a schedule led is followed so to where one of them
//!   led, it is such a search, of the states to which its schedules lead (`searches_by_schedules_are_whole`). So the
//!   outcomes of those that end are those of all runs that end (`schedules_are_complete`). Local events are passed so,
//!   if those of states of runs are in no conflict, whatever the others do first (`local_events_are_passed`).
//!
//! # Not proved
//!
//! - Not said: that a search ever expands all that it keeps; which numbers of states it needs. Of the limits only that
//!   on frames has a part in it. A kept state that is not expanded is only reached.

ghost use Rattle.search_laws.specs.Ends.{AreExceptionsMet, AreStuckMet};
ghost use Rattle.search_laws.specs.OwnEvents.{AreSearchesWhole};
ghost use Rattle.search_laws.specs.Schedules.{AreSchedulesComplete, AreSchedulesWhole, AreLocalPassed};
ghost use Rattle.search_laws.specs.Verdicts.{AreAllFollowed, AreConflictsMet, AreEndlessTrapped, AreOutcomesMet, AreRunsFollowed, AreTrapsEndless, IsLastingMet};
ghost use Rattle.search_laws.specs.Waits.{AreCirclesForEver, AreCirclesMet, AreWaitersHeldBack};

/// From where all is expanded to which edges lead, each run is followed, past events that are alone, to one of those.
pub fn runs_are_followed()
    ensures holds { AreRunsFollowed }
{}

/// Each state of a run is followed to a kept state of a whole search.
pub fn all_states_are_followed()
    ensures holds { AreAllFollowed }
{}

/// The outcomes of the kept states that are quiet are those of all runs that end.
pub fn all_outcomes_are_met()
    ensures holds { AreOutcomesMet }
{}

/// What a test tells that events keep, and that words tell, a kept state shows where a state of some run does.
pub fn what_lasts_is_met()
    ensures holds { IsLastingMet }
{}

/// Where a thread has ended by an exception in a state of some run, it has in a kept one, with the same class.
pub fn exceptions_are_met()
    ensures holds { AreExceptionsMet }
{}

/// Where a thread is stuck in a state of some run, it is in a kept one.
pub fn stuck_threads_are_met()
    ensures holds { AreStuckMet }
{}

/// Where threads wait in a circle in a state of some run, they do in a kept one.
pub fn circles_are_met()
    ensures holds { AreCirclesMet }
{}

/// A circle stays for ever, and its threads have no event.
pub fn circles_stay_for_ever()
    ensures holds { AreCirclesForEver }
{}

/// A thread that waits for another one has no event until that one has.
pub fn waiting_threads_are_held_back()
    ensures holds { AreWaitersHeldBack }
{}

/// Where two threads are in conflict in a state of some run, they are in a kept one.
pub fn conflicts_are_met()
    ensures holds { AreConflictsMet }
{}

/// Where all is expanded to which edges lead from a kept state, and none of it is quiet, no run from it ends.
pub fn traps_are_endless()
    ensures holds { AreTrapsEndless }
{}

/// Where some run leads to a state from which none ends, no edges lead from some kept state to a quiet one.
pub fn endless_states_are_trapped()
    ensures holds { AreEndlessTrapped }
{}

/// A search that goes past local events is whole, and lists the outcomes of its quiet states.
pub fn searches_past_local_events_are_whole()
    ensures holds { AreSearchesWhole }
{}

/// A search that keeps schedules, and goes past events that are alone, is whole, and lists the outcomes of its quiet
/// states.
pub fn searches_by_schedules_are_whole()
    ensures holds { AreSchedulesWhole }
{}

/// A search that keeps schedules, and goes past events that are alone, lists the outcomes of all runs that end.
pub fn schedules_are_complete()
    ensures holds { AreSchedulesComplete }
{}

/// Local events are alone, if those of states of runs are in no conflict.
pub fn local_events_are_passed()
    ensures holds { AreLocalPassed }
{}
