//! Policies of a run by one worker: which thread has the next turn, how many events the turn has at most, and which
//! waiter is woken. `docs/REFERENCE.md`, "The schedule of a seed", defines them to the bit.
//!
//! # Proved
//!
//! - `run_by_policy`, for each policy, memory aside: it is the record of a run of these files, under these limits and
//!   with this budget, as `worlds` says it (`IsRecordWithin`). So the report and the end are those of the schedule that
//!   is recorded. The same of `run_linked`, which is handed the linked program of the files (`IsProgramOf`).
//! - A run is stopped only where its gate says that it is over: `may_stop` of `Gate`, of which nothing is known but
//!   that `is_over` answers so. It ends behind a turn then, where a thread may go on, as with a budget of the events
//!   that it has done.
//! - `events_by` of `specs/policies/Runs` defines the schedule of a policy, over the definitions alone. `run_by_policy`
//!   and `run_linked` do its events: the record has all of them, or a front of them where its end says that memory was
//!   wanted, or the run was stopped (`IsRunBy`). So the same seed takes the same ones, where memory is there.
//! - `events_by` computes: `schedules_of_seeds` has words of two seeds, and events of runs by each policy over a
//!   program of two threads, as the documents have them and as `oracle/seeds.py` makes them (`SeedExamples`).
//! - `Policy::has_turns` tells whether each turn is of one event at least, which `run_by_policy` asks for. Where that
//!   refuses, what it was handed is given up.
//! - Of what it is made of: `below`, `pick_below`, `short_length` and `long_length` draw the numbers that the documents
//!   (docs/REFERENCE.md) say, of the words that the generator answers. `TurnLengths::next` counts short turns and draws
//!   the length as they say (`HasLength`). `next_thread` finds the first thread in rotation (`IsFoundBehind`), and
//!   `waiting` counts those that wait. `enabled_count` counts the threads that have an event which is enabled
//!   (`AreAble`), and `enabled_at` finds the one of a place among them (`IsAbleAt`). `waiters_to_pick` tells how many
//!   waiters the next event of a thread may pick from (`PicksOf`).
//!
//! # Not proved
//!
//! - That memory is there. `oracle/seeds.py` makes the schedules once more, by the documents and by `oracle/machine.py`
//!   alone, and cases compare them (`policies`).
//!
//! # Wrong bodies
//!
//! - `policies-random-draws-one-thread-too-few`, `worlds-counts-from-thread-1`, `worlds-place-behind-the-last`: by
//!   `random` a thread that may go on is never drawn, or another one than the word says; refused by `IsDrawn` of
//!   `drawn_thread`, by `AreAble` of `enabled_count`, and by `IsAbleAt` of `enabled_at`.
//! - `policies-random-picks-one-waiter-too-few`, `policies-random-draws-anew-for-a-pick`: a waiter is never woken, or
//!   the pick is drawn from another seed; refused by `IsPickDrawn` of `drawn_pick`, and by `does` of `take_turn`.
//! - `policies-random-stays-with-its-first-event`: a turn has two events; refused by `does` of `take_turn`.
//! - `policies-notify-all-picks-one`, `policies-waiters-of-a-foreign-monitor`: `notifyAll` picks a waiter, or a thread
//!   that doesn't own the monitor does; refused by `PicksInBuiltIn` of `built_in_picks`, and by `SaysToWake` of
//!   `waiters_to_wake`.

mod draws;
mod mixed;
mod picked_turns;
mod picks;
mod policy;
mod random;
mod rotation;
mod seeds;
mod stopping;
mod turn_lengths;
mod turn_order;
mod waiters;

pub use policy::{Policy, run_by_policy, run_linked};
pub use seeds::schedules_of_seeds;
