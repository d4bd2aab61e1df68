//! Which policies there are, and a run by one.

ghost use Rattle.std.specs.Prelude.{◌≡◌, ◌↔◌, [], None, IfOk, IsTrue, OnOk};
ghost use Rattle.std.specs.Arc.{arc_value};
ghost use Rattle.model.specs.Schedule.{events_of};
ghost use Rattle.machine.specs.Machines.{IsProgramOf};
ghost use Rattle.program_runs.specs.policies.Policies.{HasTurns};
ghost use Rattle.program_runs.specs.policies.PolicyTurns.{IsRunBy, RunsThrough};
ghost use Rattle.program_runs.specs.worlds.Records.{IsRecordWithin};
ghost use Rattle.program_runs.specs.worlds.Worlds.{IsOfLess};

use crate::policies::mixed::run_mixed;
use crate::policies::random::run_random;
use crate::policies::rotation::run_rotation;
use crate::verified_programs::verified_program;
use crate::workers::Gate;
use crate::worlds::{Recorded, World};
use linked_code::LinkedProgram;
use model::Limits;
use std::alloc::{AllocError, Global};
use std::sync::Arc;
use verifier::Verified;

/// By which rule one worker gives turns to the threads of a run. A seed is that of xoshiro256++, and with it the
/// schedule is the same each time, where memory is there.
#[derive(Clone, Copy, Debug, PartialEq, Eq)]
pub enum Policy {
    /// Turns of a length that is drawn, in rotation. By the seed turns are short or long at first, the rotation goes
    /// up or down, and main goes on alone until it has to wait, or not.
    Mixed { seed: u64 },
    /// Events of threads that are drawn: each thread that has an event which is enabled is as likely to have the next
    /// one, and so is each waiter that this may wake to be woken.
    Random { seed: u64 },
    /// Turns of up to so many events, in the order of the threads' numbers. A `notify` wakes the one that has waited
    /// longest.
    Rotation { quantum: u32 },
}

impl Policy {
    /// Whether each turn is of one event at least.
    pub fn has_turns(self) -> bool
        ensures { IsTrue result ↔ HasTurns self }
    {
        match self {
            Policy::Mixed { .. } | Policy::Random { .. } => true,
            Policy::Rotation { quantum } => quantum > 0,
        }
    }
}

/// Gives turns until there is an end.
fn take_turns<G: Gate>(world: &mut World, policy: Policy, gate: &G) -> Result<(), AllocError>
    requires turns { HasTurns policy }
    requires on { world.old.end ≡ None }
    requires none { world.old.events ≡ [] }
    ensures same { OnOk result (IsOfLess (G.may_stop gate.now) world.old world.new) }
    ensures through { OnOk result (RunsThrough policy (G.may_stop gate.now) world.old world.new) }
{
    match policy {
        Policy::Mixed { seed } => run_mixed(world, seed, gate),
        Policy::Random { seed } => run_random(world, seed, gate),
        Policy::Rotation { quantum } => {
            run_rotation(world, quantum, gate);
            Ok(())
        }
    }
}

/// Runs verified class files by a policy until there is an end (JVMS 2.5, 2.6, 5.5, chapter 6; JLS 17), and records
/// the events that were done. The gate is told how many there are, at the end of each turn, and may stop
/// the run behind one. The only error is a want of memory.
pub fn run_by_policy<G: Gate>(
    alloc: Global,
    verified: Arc<Verified>,
    limits: Limits,
    budget: u32,
    policy: Policy,
    gate: &G,
) -> Result<Recorded, AllocError>
    requires { HasTurns policy }
    ensures recorded { IfOk result (IsRecordWithin (G.may_stop gate.now) (arc_value verified) limits budget) }
    ensures by_policy { IfOk result (λ r. IsRunBy policy (G.may_stop gate.now) (arc_value verified) limits budget
        (events_of r.schedule) r.end) }
{
    let program = verified_program(alloc, &verified)?;
    run_linked(alloc, verified, program, limits, budget, policy, gate)
}

/// The same, where what a run needs of the class files is there already.
pub fn run_linked<G: Gate>(
    alloc: Global,
    verified: Arc<Verified>,
    program: Arc<LinkedProgram>,
    limits: Limits,
    budget: u32,
    policy: Policy,
    gate: &G,
) -> Result<Recorded, AllocError>
    requires turns { HasTurns policy }
    requires linked { IsProgramOf (arc_value verified) (arc_value program) }
    ensures recorded { IfOk result (IsRecordWithin (G.may_stop gate.now) (arc_value verified) limits budget) }
    ensures by_policy { IfOk result (λ r. IsRunBy policy (G.may_stop gate.now) (arc_value verified) limits budget
        (events_of r.schedule) r.end) }
{
    let mut world = World::open_linked(alloc, verified, program, limits, budget)?;
    take_turns(&mut world, policy, gate)?;
    world.into_recorded(alloc)
}
