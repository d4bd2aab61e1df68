//! Searches within so many preemptions. Each function here is a theorem, and does nothing.
//!
//! A preemption is a switch away from a thread that may still step. A search within a bound keeps states, each with the
//! thread that moved last and a number of preemptions (`Node`). It follows each event that does not go past the bound,
//! past events of the same thread that are alone and leave it to each other thread whether it may step.
//!
//! # Proved
//!
//! - Of accepted files, where each kept state is reached with no more preemptions than the bound: the outcomes of those
//!   that are quiet are those of the runs that end with no more preemptions (`bounded_searches_are_complete`).
//!
//! # Not proved
//!
//! - It would be false of events that are alone and let another thread step, as the exit of a monitor: done first, they
//!   make a preemption of a switch that was none.

ghost use Rattle.search_laws.specs.Preemptions.{AreBoundedSearchesComplete};

/// A search within so many preemptions lists the outcomes of the runs that end with no more of
/// them.
pub fn bounded_searches_are_complete()
    ensures holds { AreBoundedSearchesComplete }
{}
