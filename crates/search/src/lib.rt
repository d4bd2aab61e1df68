//! A search over all schedules of a program: every outcome that any of them can have, and the kinds of states that any
//! comes to; or one of these that is to be found.
//!
//! # Proved
//!
//! - `search`, memory aside, for the linked program of all accepted files (`IsProgramOf`), limits and numbers of
//!   states: *Found* is a schedule, in entries that are joined, at none of whose events a limit stood. They lead to a
//!   state in which no thread may step, with an outcome that is wanted, or to a state of a kind that is to be found,
//!   where threads may go on (`IsRunFor`). *Complete* has the outcomes of all runs that end, and no other; and exactly
//!   those kinds of which a run, ending or not, comes to a state (`AreAllKinds`); none of them is to be found. *GaveUp*
//!   comes only where as many states were met as may be, or some run can't be gone on with, or where the progress said
//!   that the search is over (`Says`, `GivesUp`, `may_stop` of `Progress`).
//! - Beside *Complete* stands a schedule, under whose events no limit stands, to a racy state exactly where the kinds tell
//!   a race (`TellsRace`). The text of the answer has the line of a race that is handed in (`search_text`).
//! - A state is of the kind *race* where the next events of two threads, each enabled, do conflicting accesses
//!   (`IsRacy`); *uncaught* where a thread has ended with an exception that nothing caught; *deadlock* where no thread
//!   may step and one waits for ever, or where threads wait in a circle for monitors and classes that they hold; and
//!   *endless* where no run from it ends (`Shows`).
//! - The states that are kept have edges between them, one for each event of a state that was expanded
//!   (`IsMetAlong`), and along each an event leads (`IsLed`). Where edges don't lead from a state to one without edges,
//!   it is endless; and where they do from each, no run comes to an endless state (`IsToldByEdges`, by the law of
//!   `search_laws`). `endless_number` tells the first such state by its edges alone (`IsEndlessNumber`).
//! - The number of states that is told is at most the number that may be met, if that is at least 1 (`few`); of
//!   *Complete* it is that of schedules among which the search is whole (`HasMetAll`). `states_within` is a 128th of
//!   the bytes.
//! - A state is kept behind each event of a kept one, and behind those events of the same thread that come next, are
//!   alone and in no race (`IsNextMet`, by the law of `search_laws`): local ones, and those that `alone_events` tells
//!   of. So the number of states says how many were kept, and nothing of the states between.
//! - `GivesUp`: as many states were met as may be (`most`), or some run leads to a state with an enabled event that a
//!   limit forbids, or a thread may pick the last of 65,535 that wait. An outcome is what was printed, and how each
//!   thread stands. A program in which a thread waits for a flag in a loop can be *Complete* though one of its runs
//!   goes on for ever: such runs have no outcome, and their states are told by their kinds. None of them is *endless*
//!   where another run leaves the loop.
//!
//! # Not proved
//!
//! - Not said: that each state is met once. Nor is it that a state takes 128 bytes.
//! - Not said: whether some run never ends, where each of its states may still come to an end.
//!
//! # Wrong bodies
//!
//! - `opening-state-is-skipped`, `first-thread-is-skipped`: a search passes over the opening state, or over the main
//!   thread; refused by what `visit_all` keeps (`HasVisited`), for `Says`; `AreMetByThreads` of `expand_threads`.
//! - `silent-outcomes-are-dropped`: an outcome of a run that printed nothing is dropped; refused by the contract of
//!   `is_outcome_found` (`ListsOr`).
//! - `kinds-of-the-last-state-alone`, `racy-states-are-passed-over`: the kinds of the state that was visited last are
//!   told, or a race where each state has one; refused by `kinds_are` of `IsSeen`, of `is_found`, and by `and_also`.
//! - `races-are-not-told`, `the-last-thread-alone-has-thrown`, `circles-are-none`, `stuck-threads-are-no-deadlock`: a
//!   kind of a state is passed over; refused by `AreKindsOf`, `TellsState` and `TellsWith` of what `kinds_at` calls.
//! - `any-kind-is-no-race`, `any-kind-is-not-endless`: a search for any kind passes over races, or over endless states;
//!   refused by `is_sought`.
//! - `edges-to-met-states-lead-to-themselves`, `edges-to-new-states-lead-to-themselves`: an edge isn't that of the
//!   event that was done; refused by the contract of `add` (`IsMetFrom`, `AreLed`).
//! - `states-that-are-led-to-are-last`, `one-edge-is-swept`, `one-sweep-is-all`: an endless state is told by other
//!   edges than those that lead from it; refused by `AreMarked` of `clear`, and by `Sweeps` of `sweep`.
//! - `race-is-of-the-last-state`, `race-is-of-any-state`, `race-has-no-schedule`: another state than the first racy one
//!   is told, or none; refused by `first_race`, `race_schedule`.
//! - `endless-states-go-untold`: a complete answer has no endless state; refused by `AreAllKinds` of `completed`.
//! - `own-edges-of-the-first-file`: only the first class file is asked; refused by `names_own_edges`.
//! - `event-itself-is-left-out`: an entry has the events alone that come behind one, and not that one; refused by
//!   `repeat` of `GoesPast`, of `go_past`.
//! - `one-event-too-far-is-kept`, `too-far-is-not-taken-back`: an event that isn't alone is gone past; refused by
//!   `more` of `GoesBehind`, of `do_alone`, and by `IsAfter`, of `settled`.
//! - `gives-up-unasked`: a search gives up though it isn't over; refused by `Says`: `may_stop` of `Progress` follows
//!   from the answer of `is_over` alone.
//! - `goes-back-to-the-opening`, `quiet-states-are-passed-over`: the events of each state are tried in the opening
//!   state, or an event is said to have led on before any was done; refused by the contracts of `expand` and of what it
//!   calls (`IsStateOf`, `IsThere`).
#![tactic(auto)]

mod edges;
mod endless;
mod expanding;
mod kinds;
pub mod local_runs;
mod machines;
pub mod met_states;
mod own_edges;
mod progress;
pub mod run_outcomes;
pub mod search_reports;
mod searching;
mod state_kinds;
mod states;
mod visiting;

pub use kinds::{Goal, Kind, Kinds};
pub use progress::Progress;
pub use searching::{Searched, Verdict, search};
pub use states::states_within;
