//! The sweep for a data race.
//!
//! # Proved
//!
//! - `race_sweep`, memory aside: there is a run for each seed from the first one up, and none before the last run has a
//!   data race (`SweepsForRace`). The tally is that of these runs, and the races that are told are those of the last
//!   one. *Done*: that is the run of the last seed, and has no race. *Found*: it has one. *GaveUp* comes only where the
//!   watch may stop a sweep, behind a run that has none.
//!
//! # Wrong bodies
//!
//! - `race_sweeping-passes-over-a-race`: a sweep goes on behind a race; refused by `race_sweep`.
//! - `race_sweeping-counts-another-seed`: a run is counted as that of seed 0; refused by `run_seed`.

ghost use Rattle.std.specs.Prelude.{◌≡◌, ◌<◌, ◌≤◌, ◌^◌, IfOk};
ghost use Rattle.race_sweeps.specs.race_sweeping.Swept.{AreAccepted, HasRacedRun, SweepsForRace, last_end};

use recorded_races::record_races::{RecordRaces, record_races};
use std::alloc::{AllocError, Global};
use std::sync::Wait;
use std::thread::Threads;
use sweeps::{Ran, SideBySide, SweepEnd, SweepReport, Tally, Watch};

/// What has come of a sweep for a data race.
#[derive(Drop)]
pub struct RaceSweep {
    pub report: SweepReport,
    /// The races of the last run.
    pub races: RecordRaces,
}

/// Does the run of a seed, and counts it. Answers its races. The only error is a want of memory.
fn run_seed<R: Threads + Wait + Sync>(
    rt: &R,
    alloc: Global,
    runs: &mut SideBySide<'_>,
    tally: &mut Tally,
    seed: u64,
) -> Result<RecordRaces, AllocError>
    requires few { tally.old.runs < 2 ^ 64 }
    requires accepted { AreAccepted runs.old.trees }
    ensures has_run { IfOk result (λ told. HasRacedRun runs.old seed told tally.old tally.new) }
    ensures same { runs.new ≡ runs.old }
{
    let recorded = runs.run(rt, alloc, seed)?;
    let told = record_races(alloc, &recorded)?;
    tally.add(Ran::of(recorded), seed)?;
    Ok(told)
}

/// Does a run for each seed from one up to another, in this order, until one has a data race, or the sweep is stopped.
/// The only error is a want of memory.
pub fn race_sweep<R: Threads + Wait + Sync, W: Watch>(
    rt: &R,
    alloc: Global,
    runs: &mut SideBySide<'_>,
    watch: &W,
    first: u64,
    last: u64,
) -> Result<RaceSweep, AllocError>
    requires range { first ≤ last }
    requires accepted { AreAccepted runs.old.trees }
    ensures { IfOk result (SweepsForRace runs.old (W.may_stop watch.now) first last) }
{
    let mut tally = Tally::new(alloc);
    'seeds: for seed in first..last {
        let races = run_seed(rt, alloc, runs, &mut tally, seed)?;
        watch.runs_done(tally.runs());
        if races.has_race {
            let end = SweepEnd::Found;
            let report = SweepReport { first, tally, end };
            return Ok(RaceSweep { report, races });
        }
        if watch.is_over() {
            let end = SweepEnd::GaveUp;
            let report = SweepReport { first, tally, end };
            return Ok(RaceSweep { report, races });
        }
    }
    let races = run_seed(rt, alloc, runs, &mut tally, last)?;
    watch.runs_done(tally.runs());
    let end = last_end(races.has_race);
    let report = SweepReport { first, tally, end };
    Ok(RaceSweep { report, races })
}

/// Why there are no more runs behind that of the last seed.
fn last_end(has_race: bool) -> SweepEnd
    ensures { result ≡ last_end has_race }
{
    if has_race {
        SweepEnd::Found
    } else {
        SweepEnd::Done
    }
}
