//! What runs have shown so far, and how often.

ghost use Rattle.std.specs.Prelude.{◌≡◌, ◌<◌, ◌≤◌, ◌^◌, OnOk, map, length};
ghost use Rattle.model.specs.Schedule.{events_of};
ghost use Rattle.sweeps.specs.Shown.{shown_in};
ghost use Rattle.sweeps.specs.Tallies.{empty, same_in, with_run};

use crate::same_runs::{SameRuns, count};
use crate::shown::{Ran, Shown};
use std::alloc::{AllocError, Global};
use std::marker::Model;

/// What runs have shown, in the order of the seeds that showed it first, each with how often it was; how many runs
/// there were, and how many events in all.
#[derive(Drop)]
pub struct Tally {
    same: Vec<SameRuns>,
    count: u128,
    sum: u128,
}

impl Model for Tally {
    ghost use Rattle.std.specs.Prelude.{map};
    ghost use Rattle.sweeps.specs.Tallies.{HasRoom, TallyOf};
    ghost use Rattle.sweeps.specs.Tallies as spec;

    ghost Value = { TallyOf };

    ghost view = { λ t. record { same = map spec.same_in t.same.items; runs = t.count; events = t.sum } };

    ghost invariant = { λ t. HasRoom (record {
      same = map spec.same_in t.same.items;
      runs = t.count;
      events = t.sum;
    }) };
}

impl Tally {
    /// Of no run.
    pub fn new(alloc: Global) -> Tally
        ensures { result ≡ empty }
    {
        Tally {
            same: Vec::new(alloc),
            count: 0,
            sum: 0,
        }
    }

    /// What was shown, by the seed that showed it first.
    pub fn same(&self) -> &[SameRuns]
        ensures { map same_in result.now ≡ self.now.same }
    {
        &self.same
    }

    /// How many runs there were.
    pub fn runs(&self) -> u128
        ensures value { result ≡ self.now.runs }
        ensures few { result ≤ 2 ^ 64 }
    {
        self.count
    }

    /// How many events they did, all together.
    pub fn events(&self) -> u128
        ensures { result ≡ self.now.events }
    {
        self.sum
    }

    /// Counts a run with a seed. The only error is a want of memory.
    pub fn add(&mut self, ran: Ran, seed: u64) -> Result<(), AllocError>
        requires { self.old.runs < 2 ^ 64 }
        ensures { OnOk result (self.new
            ≡ with_run (shown_in ran.shown) (events_of ran.schedule) ran.events seed self.old) }
    {
        let Ran {
            shown,
            schedule,
            events,
        } = ran;
        count(&mut self.same, shown, schedule, seed)?;
        self.count += 1;
        self.sum += u128::from(events);
        Ok(())
    }
}
