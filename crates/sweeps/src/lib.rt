//! Sweeps: a run for each of a range of seeds, what these show, and how often.
//!
//! # Proved
//!
//! - `sweep`, memory aside: there is a run for each seed from the first one up, and the tally is that of these runs
//!   (`Sweeps`, `tally_of`). It has what they show by the first seed that shows it, each with how many runs show it and
//!   with the events of the first of them; how many runs there were, and how many events in all. *Done*: there is a run
//!   for each seed up to the last, and none shows what is wanted. *Found*: the last run shows it, and none before it.
//!   *GaveUp* comes only where the watch may stop a sweep, behind a run, and none shows what is wanted (`EndsSo`).
//! - `PolicyRuns`: a run is the record of one of these class files, under these limits and with this budget, and it
//!   hasn't ended for want of memory. Its events are those of the policy and the seed (`IsRunWith`, with `events_by` of
//!   `policies`).
//! - `SideBySide`: the run with a seed is such a run with that seed, though others are done beside it, ahead of what is
//!   asked for (`is`, with `AreAhead` of all that are kept). So no clause of `sweep` names the workers: what is told
//!   doesn't depend on how many there are.
//! - `Ran::of` tells what a run shows: its outcome, where no thread may go on; else that it has no end, or that a limit
//!   has refused an event (`shown_at`). `Shown::is_same` and `Shown::is_wanted` compare it.
//! - `sweep_text`: the text is, byte by byte, that of the definition of the same name.
//!
//! # Not proved
//!
//! - Shown by cases, whose texts `oracle/sweeps.py` makes once more: the sweeps of lessons.
//! - That no more of further runs show another outcome than the text says: that is measured, and not proved.
//!
//! # Wrong bodies
//!
//! - `sweeping-skips-the-last-seed`, `sweeping-runs-the-first-seed`, `sweeping-counts-another-seed`: a seed has no run,
//!   or another one's; refused by `HasRun` of `run_seed`, and by `Sweeps`.
//! - `sweeping-passes-over-what-is-wanted`, `sweeping-found-is-done`, `sweeping-gives-up-unasked`: a sweep goes on
//!   behind what is wanted, says nothing of it, or ends before the last seed; refused by `EndsSo` of `sweep`.
//! - `side_by_side-one-run-for-all`, `side_by_side-counts-a-run-twice`, `side_by_side-passes-over-a-run`: the runs that
//!   are done side by side are all of one seed, or one is taken for that of another seed; refused by `AreRunsOf` of
//!   `runs_from`, by `AreAhead` of `fill`, and by the invariant of `SideBySide`.
//! - `same_runs-counts-twice`, `same_runs-begins-with-none`, `same_runs-another-first-seed`: a run is counted twice, or
//!   not, or the first seed is another one; refused by `with_one_more` of `count`.
//! - `tallies-forgets-the-events`: fewer events than there were; refused by `with_run` of `Tally::add`.
//! - `shown-each-is-the-same`, `shown-refused-is-without-an-end`, `shown-without-an-end-is-wanted`: what differs is
//!   told as one, a refusal as a used up budget, or a run without an end as what is wanted; refused by
//!   `Shown::is_same`, `Shown::of` and `Shown::is_wanted`.
//! - `policy_runs-another-policy`, `policy_runs-memory-is-refused`: it goes by another policy, or a want of memory is
//!   told as a limit; refused by `SeededPolicy::with` and by `IsRunWith`.
//! - `sweep_texts-numbers-from-zero`, `sweep_texts-one-number-for-all`, `sweep_texts-budget-is-refused`,
//!   `sweep_texts-one-seed-more`, `sweep_texts-a-smaller-bound`: another number, word or bound in the text; refused by
//!   `sweep_text` of the definitions.
#![tactic(auto)]

mod policy_runs;
mod same_runs;
mod shown;
mod side_by_side;
mod sweep_texts;
mod sweeping;
mod tallies;
mod watch;

pub use policy_runs::{PolicyRuns, SeededPolicy};
pub use same_runs::SameRuns;
pub use shown::{Ran, Shown};
pub use side_by_side::SideBySide;
pub use sweep_texts::sweep_text;
pub use sweeping::{SweepEnd, SweepReport, sweep};
pub use tallies::Tally;
pub use watch::Watch;
