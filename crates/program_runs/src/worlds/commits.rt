//! Bursts of the threads of a world.

ghost use Rattle.std.specs.Prelude.{◌≡◌, IfOk, IfErr};
ghost use Rattle.program_runs.specs.worlds.Commits.{ChecksOut, CopiesFirst, Commits};

use crate::worlds::world::World;
use machine::Machine;
use machine_state::bursts::Burst;
use model::Event;
use std::alloc::{AllocError, Global};

/// A burst, and the number of the thread from whose frame it started.
#[derive(Drop)]
pub struct ThreadBurst {
    pub thread: u16,
    pub burst: Burst,
}

/// What became of a burst.
#[derive(Clone, Copy, Debug)]
pub enum Commit {
    /// The steps of the burst are events of the world now.
    Committed,
    /// The thread doesn't stand where the burst started, or the budget doesn't leave as many events, or the world has
    /// ended.
    Stale,
}

/// A burst of no step of the first thread, from a number up to another, that runs with no exception pending and has a
/// frame on top.
fn first_copy(
    machine: &Machine,
    alloc: Global,
    from: u16,
    to: u16,
) -> Result<Option<ThreadBurst>, AllocError>
    ensures { IfOk result (CopiesFirst machine.now from to) }
{
    'threads: for thread in from..to {
        if let Some(burst) = machine.copy_top(alloc, thread)? {
            return Ok(Some(ThreadBurst { thread, burst }));
        }
    }
    Ok(None)
}

/// A burst of no step of the first thread in rotation that runs with no exception pending and has a frame on top.
fn first_in_rotation(
    machine: &Machine,
    alloc: Global,
    from: u16,
) -> Result<Option<ThreadBurst>, AllocError>
    ensures { IfOk result (ChecksOut machine.now from) }
{
    let count = machine.shared().threads.len() as u16;
    match first_copy(machine, alloc, from, count)? {
        Some(out) => Ok(Some(out)),
        None => first_copy(machine, alloc, 0, from.min(count)),
    }
}

impl World {
    /// A burst of no step of the first thread, in rotation from a number, that runs with no exception pending and has
    /// a frame of a method on top. There is none where no thread is so. Nothing changes. The only error is a want of
    /// memory.
    pub fn check_out(&self, alloc: Global, from: u16) -> Result<Option<ThreadBurst>, AllocError>
        ensures { IfOk result (ChecksOut self.now.machine from) }
    {
        first_in_rotation(&self.machine, alloc, from)
    }

    /// Takes a burst over, if its thread runs with no exception pending, and the frame on top is of a method with the
    /// burst's code and stands where the burst started, if the budget leaves as many events as the burst has steps,
    /// and if the world has not ended. Else the burst is stale, and nothing changes. The only error is a want of
    /// memory, after which nothing has changed.
    pub fn commit(&mut self, out: ThreadBurst) -> Result<Commit, AllocError>
        ensures done { IfOk result (λ r. Commits r self.old out self.new) }
        ensures still { IfErr result (λ _. self.new ≡ self.old) }
    {
        let ThreadBurst { thread, burst } = out;
        let steps = burst.steps();
        if self.end.is_some() || steps > u64::from(self.budget - self.recorded.len()) {
            return Ok(Commit::Stale);
        }
        self.recorded.reserve()?;
        let advanced = self.machine.advance(thread, burst)?;
        if !advanced {
            return Ok(Commit::Stale);
        }
        self.recorded
            .append(Event { thread, pick: 0 }, steps as u32);
        Ok(Commit::Committed)
    }
}
