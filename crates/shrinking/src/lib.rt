//! Schedules with fewer switches whose runs end the same.
//!
//! # Proved
//!
//! - `shrink`, memory aside, for whatever tries schedules (`Tries`): it answers a schedule that has what is wanted, and
//!   whose events go from a thread to another one no more often than those of the given one; or none, where the given
//!   one hasn't got it (`IsShrunk`).
//! - `ContinuedTries`: a schedule has what is wanted where a replay that goes on behind it has an outcome which is
//!   wanted, with the budget of the tries and with each greater one (`Has`). It hasn't got it where the replay ends
//!   otherwise, or the schedule has more events than the budget (`Lacks`). So what `shrink` answers has the outcome by
//!   `jvm replay --then-run`, too.
//! - `switch_count` is the number of events that are of another thread than the one before them (`switches`).
//! - Of what is tried: `without` leaves out the entries from one place up to another, and `gathered` has an entry
//!   behind one of those before it (`IsGathered`). Each schedule is joined, so that it has as few entries as its events
//!   can have.
//!
//! # Not proved
//!
//! - That there is no schedule with fewer switches; nor which ones are tried, and how many.
//!
//! # Wrong bodies
//!
//! - `shrinking-ends-otherwise`, `shrinking-more-switches`: a schedule is taken that hasn't got what is wanted, or that
//!   has more switches; refused by `IsKept` of `takes`.
//! - `shrinking-given-is-not-tried`, `shrinking-answers-none`: the given schedule is answered though it hasn't got it,
//!   or none though it has; refused by `IsShrunk` of `shrink`.
//! - `continued_tries-part-is-wanted`, `continued_tries-budget-is-wanted`: a schedule that can't be done to its end is
//!   taken, or one whose run has none; refused by `ComesTo`.
//! - `continued_tries-more-events-than-the-budget`: a schedule is taken of which a front was done; refused by `Has`.
//! - `switches-counts-entries`: an entry of several events is a switch; refused by `switches` of `switch_count`.
//! - `candidates-leaves-out-fewer`, `candidates-moves-elsewhere`: other entries are tried; refused by `without` and by
//!   `IsMovedBehind`.
#![tactic(auto)]

mod candidates;
mod continued_tries;
mod shrinking;
mod switches;
mod tries;

pub use continued_tries::ContinuedTries;
pub use shrinking::shrink;
pub use switches::switch_count;
pub use tries::Tries;
