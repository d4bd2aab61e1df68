//! Runs by schedules with places: which events the words of such a schedule stand for.
//!
//! # Proved
//!
//! - `follow_deeds` (`AreEventsOf`), memory aside, for all accepted class files: the events are those of the words,
//!   one after the other (`Means`), as far as they go. An entry stands for its events. A place stands for as many
//!   events of its thread, at least one, as bring it there first in the runs of the model (`IsReachedBy`): the thread
//!   runs with no exception pending, and the frame on top of its stack is at one of the offsets of the place
//!   (`is_at`). Where there are no more events, the next one is not enabled, or a limit refuses it (`CannotBeDone`),
//!   and it stands behind them; or within a place the budget is used up, or as many are done as a schedule may have
//!   (`IsFollowed`). No event of a place is done past the budget, be the place reached or not (`IsWithin`).
//! - `placed_text` (`IsPlacedText`): where it answers a text, its words are places and entries, and they stand for the
//!   events of the schedule over the class files.
//!
//! # Not proved
//!
//! - Which of its words `placed_text` makes places, and when it answers nothing, is shown by cases alone.
#![tactic(auto)]

mod following;
mod going_on;
mod names;
mod placing;
mod run;
mod standing;

pub use following::Stop;
pub use placing::placed_text;
pub use run::{Followed, follow_deeds};
