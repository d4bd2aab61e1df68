//! Runs that are done side by side, ahead of those that are asked for.

ghost use Rattle.std.specs.Prelude.{◌≡◌, ◌≤◌, ◌+◌, ◌^◌, IfOk, OnErr, OnOk, length, vec_len};
ghost use Rattle.sweeps.specs.Ahead.{AreAhead, AreRunsOf};
ghost use Rattle.sweeps.specs.Policies.{IsRunWith};

use crate::policy_runs::PolicyRuns;
use program_runs::worlds::Recorded;
use std::alloc::{AllocError, Global};
use std::marker::Model;
use std::sync::Wait;
use std::thread;
use std::thread::Threads;

/// A run, or a want of memory in it.
type Tried = Result<Recorded, AllocError>;

/// Runs by a policy of which so many are done at a time, one to each worker. What comes of a run doesn't depend on it.
#[derive(Drop)]
pub struct SideBySide<'a> {
    runs: PolicyRuns<'a>,
    workers: u32,
    /// The last seed for which there is to be a run.
    last: u64,
    /// The seed of the run that is next.
    next: u64,
    /// The run with that seed, and those with the seeds behind it, as far as they are done.
    ahead: Vec<Tried>,
}

impl<'a> Model for SideBySide<'a> {
    ghost use Rattle.sweeps.specs.Policies.{RunsBy};
    ghost use Rattle.sweeps.specs.Ahead.{AreAhead};

    ghost Value = { RunsBy };

    ghost view = { λ s. s.runs };

    ghost invariant = { λ s. AreAhead s.runs s.next s.ahead.items };
}

impl<'a> SideBySide<'a> {
    /// Runs of which none is done.
    pub fn new(alloc: Global, runs: PolicyRuns<'a>, workers: u32, last: u64) -> SideBySide<'a>
        ensures { result ≡ runs.entry }
    {
        SideBySide {
            runs,
            workers,
            last,
            next: 0,
            ahead: Vec::new(alloc),
        }
    }

    /// How many runs are done at a time, of those from a seed up to the last.
    fn count(&self, seed: u64) -> usize
        ensures some { 1 ≤ result }
        ensures few { seed + result ≤ 2 ^ 64 }
    {
        if seed < self.last {
            let others = self.last - seed;
            u64::from(self.workers.max(1) - 1).min(others) as usize + 1
        } else {
            1
        }
    }
}

/// Does the runs of so many seeds, from one on, side by side. The only error is a want of memory for the work itself.
fn runs_from<R: Threads + Wait + Sync>(
    rt: &R,
    alloc: Global,
    runs: &PolicyRuns<'_>,
    seed: u64,
    count: usize,
) -> Result<Vec<Tried>, AllocError>
    requires { seed + count ≤ 2 ^ 64 }
    ensures count { IfOk result (λ done. vec_len done ≡ count) }
    ensures each { IfOk result (λ done. AreRunsOf runs.now seed done.items) }
{
    thread::map_indices(
        rt,
        alloc,
        count,
        &|i| { runs.run_of(alloc, seed + i as u64) },
    )
}

/// Does the runs of so many seeds, from one on, unless the runs that are done begin with that one. The only error is a
/// want of memory, and nothing has changed.
fn fill<R: Threads + Wait + Sync>(
    rt: &R,
    alloc: Global,
    runs: &PolicyRuns<'_>,
    ahead: &mut Vec<Tried>,
    next: u64,
    seed: u64,
    count: usize,
) -> Result<(), AllocError>
    requires are { AreAhead runs.now next ahead.old.items }
    requires some { 1 ≤ count }
    requires few { seed + count ≤ 2 ^ 64 }
    ensures are { OnOk result (AreAhead runs.now seed ahead.new.items) }
    ensures some { OnOk result (1 ≤ length ahead.new.items) }
    ensures still { OnErr result (ahead.new.items ≡ ahead.old.items) }
{
    if next != seed || ahead.is_empty() {
        *ahead = runs_from(rt, alloc, runs, seed, count)?;
    }
    Ok(())
}

impl SideBySide<'_> {
    /// The run with a seed. The only error is a want of memory.
    pub fn run<R: Threads + Wait + Sync>(
        &mut self,
        rt: &R,
        alloc: Global,
        seed: u64,
    ) -> Result<Recorded, AllocError>
        ensures is { IfOk result (IsRunWith self.old seed) }
        ensures same { self.new ≡ self.old }
    {
        let count = self.count(seed);
        fill(
            rt,
            alloc,
            &self.runs,
            &mut self.ahead,
            self.next,
            seed,
            count,
        )?;
        self.next = seed;
        let run = self.ahead.remove(0);
        if !self.ahead.is_empty() {
            self.next = seed + 1;
        }
        run
    }
}
