//! Runs by a policy, one for each seed.

ghost use Rattle.std.specs.Prelude.{◌≡◌, IfOk};
ghost use Rattle.std.specs.Arc.{arc_value};
ghost use Rattle.machine.specs.Machines.{IsProgramOf};
ghost use Rattle.sweeps.specs.Policies.{IsRunWith, WantsMemory, name_of, with_seed};

use linked_code::LinkedProgram;
use model::{End, Limits, RunCause};
use program_runs::policies::{Policy, run_linked};
use program_runs::workers::Gate;
use program_runs::worlds::Recorded;
use std::alloc::{AllocError, Global};
use std::marker::Model;
use std::sync::Arc;
use verifier::Verified;

/// A policy that goes by a seed.
#[derive(Clone, Copy, Debug, PartialEq, Eq)]
pub enum SeededPolicy {
    Mixed,
    Random,
}

impl SeededPolicy {
    /// The policy with a seed.
    pub fn with(self, seed: u64) -> Policy
        ensures { result ≡ with_seed self seed }
    {
        match self {
            SeededPolicy::Mixed => Policy::Mixed { seed },
            SeededPolicy::Random => Policy::Random { seed },
        }
    }

    /// The name of the policy, as options have it.
    pub fn name(self) -> &'static str
        ensures { result.now ≡ name_of self }
    {
        match self {
            SeededPolicy::Mixed => "mixed",
            SeededPolicy::Random => "random",
        }
    }
}

/// Is told nothing.
struct Unwatched;

impl Gate for Unwatched {
    ghost use Rattle.std.specs.Prelude.{false};

    ghost may_stop = { λ _. false };

    fn burst_begins(&self, _thread: u16) {}

    fn burst_ends(&self, _thread: u16) {}

    fn turn_ends(&self, _events: u32) {}

    fn is_over(&self) -> bool {
        false
    }
}

/// Runs of verified class files by a policy, under limits and with a budget of events for each.
#[derive(Drop)]
pub struct PolicyRuns<'a> {
    verified: &'a Arc<Verified>,
    program: &'a Arc<LinkedProgram>,
    limits: Limits,
    budget: u32,
    policy: SeededPolicy,
}

impl<'a> Model for PolicyRuns<'a> {
    ghost use Rattle.std.specs.Arc.{arc_value};
    ghost use Rattle.machine.specs.Machines.{IsProgramOf};
    ghost use Rattle.sweeps.specs.Policies.{RunsBy};

    ghost Value = { RunsBy };

    ghost view = { λ s. record {
      policy = s.policy;
      trees = arc_value s.verified.now;
      limits = s.limits;
      budget = s.budget;
    } };

    ghost invariant = { λ s. IsProgramOf (arc_value s.verified.now) (arc_value s.program.now) };
}

impl<'a> PolicyRuns<'a> {
    /// The runs of class files of which there is all that a run needs.
    pub fn new(
        verified: &'a Arc<Verified>,
        program: &'a Arc<LinkedProgram>,
        limits: Limits,
        budget: u32,
        policy: SeededPolicy,
    ) -> PolicyRuns<'a>
        requires { IsProgramOf (arc_value verified.now) (arc_value program.now) }
        ensures { result
            ≡ record { policy = policy; trees = arc_value verified.now; limits = limits; budget = budget } }
    {
        PolicyRuns {
            verified,
            program,
            limits,
            budget,
            policy,
        }
    }
}

/// A run, unless it ended for want of memory.
fn unless_memory(recorded: Recorded) -> Result<Recorded, AllocError>
    ensures { IfOk result (λ r. (r ≡ recorded) × (WantsMemory r.end → ⊥)) }
{
    match recorded.end {
        End::Refused(_, RunCause::Memory) => Err(AllocError),
        _ => Ok(recorded),
    }
}

impl PolicyRuns<'_> {
    /// The run with a seed. The only error is a want of memory.
    pub fn run_of(&self, alloc: Global, seed: u64) -> Result<Recorded, AllocError>
        ensures { IfOk result (IsRunWith self.now seed) }
    {
        let verified = Arc::try_clone(self.verified)?;
        let program = Arc::try_clone(self.program)?;
        let policy = self.policy.with(seed);
        unless_memory(run_linked(
            alloc,
            verified,
            program,
            self.limits,
            self.budget,
            policy,
            &Unwatched,
        )?)
    }
}
