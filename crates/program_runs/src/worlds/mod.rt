//! A world: verified class files, a machine that runs them, and the events that it has done so far, which are their
//! schedule.
//!
//! # Proved
//!
//! - `World` is verified class files, a machine that runs them under limits, the events that it has done, and why it
//!   does no more. Its type keeps (`Holds`) that the machine shows where a run of accepted files led by these events,
//!   at none of which a limit stood; that they are no more than the budget; and that an end which is set fits: no
//!   thread may go on; or the budget is used up, and some thread may; or some event is enabled, and is refused.
//! - `open` keeps the files, the limits and the budget that it is handed, with no event and no end, and errs for want
//!   of memory alone; so does `open_linked`, which is handed the linked program, too (`IsProgramOf`); the getters.
//! - `repeat` (`RepeatsWithin`): where an end is set, nothing changes. Else an event is done so often, of as many times
//!   as were asked for and the budget has left, and after these it is not done again, for a reason that stands
//!   (`HasGone`); just these are recorded behind the others. Files, limits, budget and end stay. Where memory for the
//!   record is wanted, nothing changes. Since the type is kept, the machine then shows where all recorded events led,
//!   and no limit stood at any.
//! - `shared_steps` (`TakesTurn`): where an end is set, nothing changes. Else the thread that it answers is the first
//!   one in rotation from a number that has an event which is enabled (`IsNext`), and at least one event of it is done,
//!   of as many as were asked for, by `repeat`'s rules. Or nothing is done, and an end is set. Files, limits and budget
//!   stay.
//! - `turn` (`DoesTurn`) does the events of a turn of a thread as the definition has them (`with_turn`), and `event` one
//!   event where it can be done (`can_do`). Where none can be done an end is set; and where memory is wanted.
//! - `stop` (`Stops`): where there is no end, and some thread has an event that is enabled, the budget is used up by the
//!   events that were done, and the end says so. Else nothing changes.
//! - `check_out` (`ChecksOut`), memory aside: nothing changes, and it gives a burst of no step of the first thread in
//!   rotation that runs with no exception pending and has a frame of a method on top, with that frame; none only where
//!   no thread is so.
//! - `commit` (`Commits`), memory aside: a burst is `Committed` where its thread runs with no exception pending, the
//!   frame on top stands where the burst started and its method has the burst's code, the budget leaves as many events
//!   as the burst has steps, and no end is set; then so many events of the thread are recorded behind the others, and
//!   the frame on top is where the burst has come to. Else it is `Stale`, and nothing has changed; nor has it where
//!   memory is wanted.
//! - `into_recorded` (`IsRecordOf`, `Keeps`), memory aside: the record names the world's class files and limits; its
//!   events lead to a state, and no limit stood at any; they are no more than the budget, and the entries of their
//!   schedule are joined (`AreJoined` of `schedule`); the report is their `meaning` with the record's end, and that end
//!   fits; neither its events nor any next one meets an operand of a wrong kind. Where the world had an end, it is that
//!   end, and the events are the world's; else turns are taken until there is one.
//! - Where they refuse, `open` gives up what it was handed, `commit` the burst, and `into_recorded` the world.
//!
//! # Not proved
//!
//! - Not said by any clause: that turns, bursts and records are done where memory is there.
//!
//! # Wrong bodies
//!
//! - `worlds-always-stale`: a burst that could be taken over is stale; refused by `done` of `commit`: `Stale` only
//!   where `CanCommit` isn't.
//! - `worlds-drops-an-event`: an event that was done is missing in the schedule; refused by `done` of `repeat`, and the
//!   type of `World` (`Holds`).
//! - `worlds-never-moves`: the world stays as it is, and its end is `Quiet`; refused by the type of `World`: `Quiet`
//!   only where no thread may go on.
//! - `worlds-never-checks-out`: no burst is ever checked out; refused by `ChecksOut`: none only where no thread is so.
//! - `worlds-runs-past-a-limit`: the world's machine runs past a limit; refused by `IsNew` of `World::open`: the limits
//!   are those handed in.

mod commits;
mod records;
mod sharing;
mod stopping;
mod thread_turns;
mod turns;
mod world;

pub use commits::{Commit, ThreadBurst};
pub use records::Recorded;
pub(crate) use thread_turns::unless_memory;
pub(crate) use turns::{enabled_at, enabled_count, first_enabled, first_enabled_below};
pub use world::World;
