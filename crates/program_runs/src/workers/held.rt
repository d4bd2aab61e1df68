//! A world that workers share under a lock.

ghost use Rattle.std.specs.Prelude.{◌≡◌, ◌≤◌, ℕ, Bool, IsTrue, [], false, length, IfOk, IfErr};
ghost use Rattle.model.specs.Classes.{Program};
ghost use Rattle.model.specs.declared.limits.Limits.{Limits};
ghost use Rattle.program_runs.specs.worlds.Commits.{ChecksOut};
ghost use Rattle.program_runs.specs.worlds.Worlds.{TakesTurn};
ghost use Rattle.program_runs.specs.workers.Runs.{IsWorldOf, TakesOver, some_limits};

use crate::workers::gate::Gate;
use crate::worlds::{Commit, ThreadBurst, World};
use std::alloc::{AllocError, Global};
use std::marker::{Brand, Model, PhantomData};

/// What a run is of: class files, limits and a budget, and whether it may be stopped. Each run picks its own.
pub trait Given {
    ghost trees: { Program };

    ghost limits: { Limits };

    ghost budget: { ℕ };

    ghost may_stop: { Bool };
}

impl Given for Brand {
    ghost trees = { [] };

    ghost limits = { some_limits };

    ghost budget = { 0 };

    ghost may_stop = { false };
}

/// A world of the class files, the limits and the budget that are given.
#[derive(Drop)]
pub struct Held<J: Given> {
    world: World,
    of: PhantomData<J>,
}

impl<J: Given> Model for Held<J> {
    ghost use Rattle.program_runs.specs.worlds.Worlds.{WorldOf};
    ghost use Rattle.program_runs.specs.workers.Runs.{IsWorldOf};

    ghost Value = { WorldOf };

    ghost view = { λ h. h.world };

    ghost invariant = { λ h. IsWorldOf J.trees J.limits J.budget J.may_stop h.world };
}

impl<J: Given> Held<J> {
    /// Holds a world.
    pub fn new(world: World) -> Held<J>
        requires { IsWorldOf J.trees J.limits J.budget J.may_stop world }
        ensures { result ≡ world }
    {
        Held {
            world,
            of: PhantomData,
        }
    }

    /// A burst of no step of the first thread, in rotation from a number, that runs with no exception pending and has
    /// a frame of a method on top. There is none where no thread is so. Nothing changes. The only error is a want of
    /// memory.
    pub fn check_out(&self, alloc: Global, from: u16) -> Result<Option<ThreadBurst>, AllocError>
        ensures { IfOk result (ChecksOut self.now.machine from) }
    {
        self.world.check_out(alloc, from)
    }

    /// Does no more events than it has done, from now on.
    pub fn stop(&mut self)
        requires { IsTrue J.may_stop }
    {
        self.world.stop();
    }

    /// Takes a burst over. Tells whether it did: it doesn't where there is none, where it has no step, and where it
    /// is stale, and then nothing changes. The only error is a want of memory, after which nothing has changed.
    pub fn take_over(&mut self, out: Option<ThreadBurst>) -> Result<bool, AllocError>
        ensures done { IfOk result (λ r. TakesOver r self.old out self.new) }
        ensures still { IfErr result (λ _. self.new ≡ self.old) }
    {
        let Some(out) = out else {
            return Ok(false);
        };
        if out.burst.steps() == 0 {
            return Ok(false);
        }
        match self.world.commit(out)? {
            Commit::Committed => Ok(true),
            Commit::Stale => Ok(false),
        }
    }

    /// Does up to so many events of the first thread that has one which is enabled, in rotation from a number up,
    /// within the budget; none of them picks a waiter. Returns the thread, or none where an end is set: if it wasn't
    /// before, it is now.
    pub fn shared_steps(&mut self, from: u16, most: u32) -> Option<u16>
        requires { 1 ≤ most }
        ensures { TakesTurn from most self.old.end result self.old self.new }
    {
        self.world.shared_steps(from, most)
    }

    /// Shows a gate what it has done.
    pub fn show<G: Gate>(&self, gate: &G) {
        self.world.show(gate);
    }

    /// How many events it has done.
    pub fn count(&self) -> u32
        ensures { result ≡ length self.now.events }
    {
        self.world.count()
    }

    /// The world.
    pub fn into_world(self) -> World
        ensures same { result ≡ self }
        ensures of { IsWorldOf J.trees J.limits J.budget J.may_stop result }
    {
        self.world
    }
}
