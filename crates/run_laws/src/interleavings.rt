//! All schedules of a program: which runs stand for all of them. Each function here is a theorem, and does nothing.
//!
//! A local event touches the frame on top of its thread alone, so it may as well come first, whatever the other
//! threads do. A search that lets only such a thread move, where there is one, comes to each end that any schedule
//! comes to.
//!
//! # Proved
//!
//! Of accepted files, over values. An event is local (`next_local`) where its thread runs with no exception pending and
//! the frame on top stands at a local instruction, which throws nothing. A reduced step (`reduced_step`) is a step in
//! which only the lowest thread moves whose next event is local, where there is one:
//!
//! - Of a well-typed state: an event leaves each other thread that runs its stack, its status and the exception that is
//!   pending in it (`others_are_left_alone`). A local event with pick 0 is enabled, takes nothing, and changes the
//!   stack of its thread alone (`local_events_are_their_own`). An event of another thread leaves it local, and the two
//!   lead to the same state in either order, the other one at the same cost (`local_events_commute`).
//! - Of runs: each run that leads from the opening state to one in which no thread may step has one of reduced steps to
//!   the same state (`each_end_is_explored`). Where a state of a run has no reduced step with pick 0, no thread may
//!   step (`each_end_is_seen`).
//! - Of lists of states and outcomes (`IsSearched`): where the opening state is among the states, each of them is
//!   reached by a run, each reduced step of one, with whatever pick, leads to one of them, and the outcomes are those
//!   of the ones in which no thread may step, then each outcome of a run that ends so is listed, and each that is
//!   listed some run has (`closed_searches_are_complete`). An outcome is the text printed and how each thread
//!   stands.
//!
//! # Not proved
//!
//! - Not said: anything of runs that never end, or of states on the way; that a list is ever closed; which picks there
//!   are. Of the limits only that on frames has a part in it: a search that meets another one has to give up. No code
//!   makes such a list: `search` keeps schedules, by `searches`.

ghost use Rattle.run_laws.specs.interleavings.Statements.{AreLocalEventsCommuting, AreLocalEventsTheirOwn, AreOthersLeftAlone, IsEachEndExplored, IsEachEndSeen, IsSearchComplete};

/// An event leaves each other thread that runs its stack, its status and the exception that is pending in it.
pub fn others_are_left_alone()
    ensures holds { AreOthersLeftAlone }
{}

/// A local event is enabled, takes nothing, and changes the stack of its thread alone.
pub fn local_events_are_their_own()
    ensures holds { AreLocalEventsTheirOwn }
{}

/// A local event of a thread and any event of another one lead to the same state, at the same cost, in either order.
pub fn local_events_commute()
    ensures holds { AreLocalEventsCommuting }
{}

/// Each run to a state in which no thread may step has one of reduced steps to the same state.
pub fn each_end_is_explored()
    ensures holds { IsEachEndExplored }
{}

/// Where no thread has a reduced step, none may step.
pub fn each_end_is_seen()
    ensures holds { IsEachEndSeen }
{}

/// Where a list of states has the opening state and is closed under reduced steps, the outcomes of its ends are those
/// of all runs that end.
pub fn closed_searches_are_complete()
    ensures holds { IsSearchComplete }
{}
