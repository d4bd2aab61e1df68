//! Workers: threads that run a world by turns, and do its bursts side by side.
//!
//! # Proved
//!
//! - `run_workers` (`IsRecordWithin`), for all accepted files, limits and budgets, any number of workers and any quantum:
//!   where the workers end and there is memory, the record names the class files and the limits that were handed in;
//!   the printed text and the threads of its report are those of the state to which `run` leads by its events, at
//!   none of which a limit stood; they are no more than the budget; and the text of the report is their `meaning` with
//!   the end, which is one of three:
//!   - `Quiet`: no thread has an event that is enabled;
//!   - `Budget`: the events are as many as the budget, and some thread has one more that is enabled;
//!   - `Refused`: they are fewer; some event is enabled, and the limit that is told stands at it, or there was no
//!     memory for it.
//! - Where the gate says that the run is over (`may_stop` of `Gate`), the budget is what was spent of it; else it is the
//!   one that was handed in (`IsSpent`).
//! - What a replay of the recorded events comes to is said by `records_replay` of `recorded_replays`.
//! - The workers share a world under one lock. What is known when they have ended is what its type keeps whenever the
//!   lock is free (`Holds`), and that its files and limits are those that were given, and its budget, unless the run is
//!   stopped (`IsWorldOf`). No rule over atomics is used.
//! - Of what a worker does to the world while it holds the lock: `take_over` commits a burst that has steps exactly
//!   where it can be committed, and else changes nothing, memory aside (`TakesOver`); `shared_steps` takes a turn
//!   (`TakesTurn`).
//!
//! # Not proved
//!
//! - Shown by tests alone (`worker_tests`): that bursts of two Java threads overlap (`gate_two_bursts_at_once`, which a
//!   body with one worker fails, and one that holds the lock during bursts, and one without bursts); that bursts are
//!   committed (`one_worker_commits_bursts`, by the schedule of one worker).
//! - Shown by cases too: that recorded runs replay to the equal report, by 1, 2 and 4 workers, with bursts and without.
//! - Shown by `tools/try-files` alone: that a gate is shown what the run has done so far (`is_watching` of `Gate`).
//! - Neither proved nor shown: which schedule comes of several workers, that they end, that each gets the lock in turn,
//!   and how fast they are.

mod gate;
mod held;
mod work;

pub use crate::worlds::Recorded;
pub use gate::Gate;
pub use work::run_workers;
