//! The world that workers share, and what is always so of it.

ghost use Rattle.std.specs.Prelude.{◌≡◌, length, IfOk};
ghost use Rattle.std.specs.Arc.{arc_value};
ghost use Rattle.machine.specs.Machines.{IsProgramOf};
ghost use Rattle.program_runs.specs.worlds.Worlds.{Holds, IsNew};

use crate::verified_programs::{open_linked_machine, verified_program};
use crate::workers::Gate;
use linked_code::LinkedProgram;
use machine::Machine;
use model::{End, Limits};
use schedule::recorded_events::RecordedEvents;
use std::alloc::{AllocError, Global};
use std::marker::Model;
use std::sync::Arc;
use verifier::Verified;

/// Verified class files, a machine that runs them under limits, the events that it has done, at most so many, and why
/// it does no more.
#[derive(Drop)]
pub struct World {
    pub(crate) verified: Arc<Verified>,
    pub(crate) budget: u32,
    pub(crate) recorded: RecordedEvents,
    pub(crate) machine: Machine,
    pub(crate) end: Option<End>,
}

impl Model for World {
    ghost use Rattle.program_runs.specs.worlds.Worlds as spec;

    ghost Value = { spec.WorldOf };

    ghost use Rattle.program_runs.specs.worlds.Shown.{shown};

    ghost view = { shown };

    ghost invariant = { λ w. spec.Holds (shown w) };
}

impl World {
    /// A world of verified class files before any event, which may do so many. The only error is a want of memory.
    pub fn open(
        alloc: Global,
        verified: Arc<Verified>,
        limits: Limits,
        budget: u32,
    ) -> Result<World, AllocError>
        ensures { IfOk result (IsNew (arc_value verified) limits budget) }
    {
        let program = verified_program(alloc, &verified)?;
        World::open_linked(alloc, verified, program, limits, budget)
    }

    /// The same, where what a run needs of the class files is there already.
    pub fn open_linked(
        alloc: Global,
        verified: Arc<Verified>,
        program: Arc<LinkedProgram>,
        limits: Limits,
        budget: u32,
    ) -> Result<World, AllocError>
        requires { IsProgramOf (arc_value verified) (arc_value program) }
        ensures { IfOk result (IsNew (arc_value verified) limits budget) }
    {
        let machine = open_linked_machine(alloc, program, limits)?;
        Ok(World {
            verified,
            budget,
            recorded: RecordedEvents::new(alloc),
            machine,
            end: None,
        })
    }

    /// Its class files.
    pub fn verified(&self) -> &Arc<Verified>
        ensures { arc_value result.now ≡ self.now.trees }
    {
        &self.verified
    }

    /// The limits of the run.
    pub fn limits(&self) -> Limits
        ensures { result ≡ self.now.machine.limits }
    {
        self.machine.limits()
    }

    /// How many events it may do.
    pub fn budget(&self) -> u32
        ensures { result ≡ self.now.budget }
    {
        self.budget
    }

    /// How many events it has done.
    pub fn count(&self) -> u32
        ensures { result ≡ length self.now.events }
    {
        self.recorded.len()
    }

    /// Why it does no more events, where that is known.
    pub fn end(&self) -> Option<End>
        ensures is { result ≡ self.now.end }
        ensures holds { Holds self.now }
    {
        self.end
    }

    /// Its machine.
    pub fn machine(&self) -> &Machine
        ensures { result.now ≡ self.now.machine }
    {
        &self.machine
    }

    /// Tells a gate how many events it has done, and shows it these where it wants to see them.
    pub(crate) fn tell<G: Gate>(&self, gate: &G) {
        gate.turn_ends(self.count());
        if gate.is_watching() {
            self.show(gate);
        }
    }

    /// Shows a gate what it has done so far.
    pub(crate) fn show<G: Gate>(&self, gate: &G) {
        gate.watch_record(&self.recorded);
        gate.watch_output(self.machine.shared().printed.as_slice());
    }

    /// The events that it has done.
    pub fn into_events(self) -> RecordedEvents
        ensures { result.events ≡ self.events }
    {
        self.recorded
    }
}
