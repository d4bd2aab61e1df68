//! The sweep.

ghost use Rattle.std.specs.Prelude.{◌≡◌, ◌<◌, ◌≤◌, ◌^◌, IfOk};
ghost use Rattle.sweeps.specs.Policies.{IsRunWith};
ghost use Rattle.sweeps.specs.Sweeps.{HasRun, Sweeps, last_end};

use crate::shown::Ran;
use crate::side_by_side::SideBySide;
use crate::tallies::Tally;
use crate::watch::Watch;
use search::run_outcomes::Wanted;
use std::alloc::{AllocError, Global};
use std::sync::Wait;
use std::thread::Threads;

/// Why a sweep has come to an end.
#[derive(Clone, Copy, Debug, PartialEq, Eq)]
pub enum SweepEnd {
    /// There is a run for each seed, and none shows what is wanted.
    Done,
    /// The last run shows what is wanted, and none before it does.
    Found,
    /// The sweep was stopped behind a run.
    GaveUp,
}

/// What has come of a sweep.
#[derive(Drop)]
pub struct SweepReport {
    /// The seed of the first run.
    pub first: u64,
    pub tally: Tally,
    pub end: SweepEnd,
}

/// Does the run of a seed, and counts it. Answers whether it shows what is wanted. The only error is a want of memory.
fn run_seed<R: Threads + Wait + Sync>(
    rt: &R,
    alloc: Global,
    runs: &mut SideBySide<'_>,
    wanted: &Wanted,
    tally: &mut Tally,
    seed: u64,
) -> Result<bool, AllocError>
    requires few { tally.old.runs < 2 ^ 64 }
    ensures has_run { IfOk result (λ found. HasRun (IsRunWith runs.old) wanted.now seed found tally.old tally.new) }
    ensures same { runs.new ≡ runs.old }
{
    let ran = Ran::of(runs.run(rt, alloc, seed)?);
    let is_wanted = ran.shown.is_wanted(alloc, wanted)?;
    tally.add(ran, seed)?;
    Ok(is_wanted)
}

/// Does a run for each seed from one up to another, in this order, until one shows what is wanted, or the sweep is
/// stopped. The only error is a want of memory.
pub fn sweep<R: Threads + Wait + Sync, W: Watch>(
    rt: &R,
    alloc: Global,
    runs: &mut SideBySide<'_>,
    watch: &W,
    wanted: &Wanted,
    first: u64,
    last: u64,
) -> Result<SweepReport, AllocError>
    requires { first ≤ last }
    ensures { IfOk result (Sweeps (IsRunWith runs.old) (W.may_stop watch.now) wanted.now first last) }
{
    let mut tally = Tally::new(alloc);
    'seeds: for seed in first..last {
        let is_wanted = run_seed(rt, alloc, runs, wanted, &mut tally, seed)?;
        watch.runs_done(tally.runs());
        if is_wanted {
            let end = SweepEnd::Found;
            return Ok(SweepReport { first, tally, end });
        }
        if watch.is_over() {
            let end = SweepEnd::GaveUp;
            return Ok(SweepReport { first, tally, end });
        }
    }
    let is_wanted = run_seed(rt, alloc, runs, wanted, &mut tally, last)?;
    watch.runs_done(tally.runs());
    let end = last_end(is_wanted);
    Ok(SweepReport { first, tally, end })
}

/// Why there are no more runs behind that of the last seed.
fn last_end(is_wanted: bool) -> SweepEnd
    ensures { result ≡ last_end is_wanted }
{
    if is_wanted {
        SweepEnd::Found
    } else {
        SweepEnd::Done
    }
}
