//! What a search over all schedules has to come to so that it has met every end, and in which order it may try the
//! picks of an event. Each function here is a theorem, and does nothing.
//!
//! # Proved
//!
//! - Of a list of schedules (`IsWhole`): where the opening state is met, each event leads on from the end of each
//!   schedule to a state that is met, and the outcomes are those of the ends in which no thread may step, then each
//!   outcome of a run that ends so is listed, and each that is listed some run has (`searches_are_complete`). A state
//!   is met where a schedule of the list leads to one with the same words, or where local events lead to such a state
//!   from it. So a search may go past local events, of any threads, without keeping the states between them.
//! - Of events: where one is enabled, so is the one of the same thread with each lower pick (`picks_are_in_order`). A
//!   search may try the picks from 0 until one is not enabled.

ghost use Rattle.run_laws.specs.searches.Picks.{ArePicksInOrder};
ghost use Rattle.run_laws.specs.searches.Searches.{AreSearchesComplete};

/// Where an event of a thread is enabled, so is the one with each lower pick.
pub fn picks_are_in_order()
    ensures holds { ArePicksInOrder }
{}

/// A search lists the outcomes of all runs that end, where each event leads on from each of its schedules to words
/// that another of them leads to, be it after some local events more, and the outcome of each quiet state is listed.
pub fn searches_are_complete()
    ensures holds { AreSearchesComplete }
{}
