//! The machine: what it keeps, and what is always so of it.

ghost use Rattle.std.specs.Prelude.{◌≡◌, IfOk};
ghost use Rattle.std.specs.Arc.{arc_value};
ghost use Rattle.machine.specs.Machines.{IsMachine, IsOfAccepted, Opens, Steps, Repeats};

use crate::stacks::{give_back, lend};
use crate::turns::thread_turns;
use linked_code::LinkedProgram;
use machine_state::state_events::{events_are_whole, stacks_are_lent};
use machine_state::{Answer, EventRefusal, Shared};
use machine_threads::machine_opening::opening_state;
use machine_threads::thread_events::thread_event;
use model::{Event, Limits};
use std::alloc::{AllocError, Global};
use std::marker::Model;
use std::sync::Arc;
use thread_stacks::ThreadStack;

/// Why an event was not done once more.
#[derive(Clone, Copy)]
pub enum Stopped {
    /// The event was done as often as was asked for.
    Most,
    /// The next event is not enabled.
    NotEnabled,
    /// A limit forbids it, or it takes memory that isn't there.
    Refused(EventRefusal),
}

/// A Java Virtual Machine that runs a linked program (JVMS 2.5): always in a state that the program's files can reach
/// by what types allow.
#[derive(Drop)]
pub struct Machine {
    pub(crate) program: Arc<LinkedProgram>,
    limits: Limits,
    pub(crate) shared: Shared,
    /// The stack that stands in the place of a thread's stack while that is lent.
    pub(crate) spare: ThreadStack,
}

impl Model for Machine {
    ghost use Rattle.std.specs.Arc.{arc_value};
    ghost use Rattle.machine.specs.Machines.{MachineOf, IsMachine};

    ghost Value = { MachineOf };

    ghost view = { λ m. record { program = arc_value m.program; limits = m.limits; shared = m.shared } };

    ghost invariant = { λ m. IsMachine (record { program = arc_value m.program; limits = m.limits; shared = m.shared }) };
}

impl Machine {
    /// The machine of a program before any event: the main thread alone is there, and has not begun. The only error
    /// is a want of memory.
    pub fn open(
        alloc: Global,
        program: Arc<LinkedProgram>,
        limits: Limits,
    ) -> Result<Machine, AllocError>
        requires { IsOfAccepted (arc_value program) }
        ensures { IfOk result (Opens (arc_value program) limits) }
    {
        let shared = opening_state(alloc, &program, limits)?;
        Ok(Machine {
            program,
            limits,
            shared,
            spare: ThreadStack::new(alloc),
        })
    }

    /// A machine of a program, under these limits, in a state that its threads share: one in which a machine was.
    pub fn resume(
        alloc: Global,
        program: Arc<LinkedProgram>,
        limits: Limits,
        shared: Shared,
    ) -> Machine
        requires { IsMachine (record { program = arc_value program; limits = limits; shared = shared }) }
        ensures { result ≡ record { program = arc_value program; limits = limits; shared = shared } }
    {
        Machine {
            program,
            limits,
            shared,
            spare: ThreadStack::new(alloc),
        }
    }

    /// The program that it ran, and what its threads shared, once it is to do no more events.
    pub fn into_parts(self) -> (Arc<LinkedProgram>, Shared)
        ensures program { arc_value result.0 ≡ self.program }
        ensures shared { result.1 ≡ self.shared }
    {
        (self.program, self.shared)
    }

    /// The program that it runs.
    pub fn program(&self) -> &Arc<LinkedProgram>
        ensures { arc_value result.now ≡ self.now.program }
    {
        &self.program
    }

    /// The limits of the run.
    pub fn limits(&self) -> Limits
        ensures { result ≡ self.now.limits }
    {
        self.limits
    }

    /// What its threads share, and their stacks.
    pub fn shared(&self) -> &Shared
        ensures same { result.now ≡ self.now.shared }
        ensures known { IsMachine self.now }
    {
        &self.shared
    }

    /// What its threads shared, and their stacks, once it is to do no more events.
    pub fn into_shared(self) -> Shared
        ensures { result ≡ self.shared }
    {
        self.shared
    }

    /// Does an event, if it is enabled. `NotEnabled` where it isn't; an error where a limit forbids it, or where it
    /// takes memory that isn't there. In both cases nothing has changed.
    pub fn step(&mut self, event: Event) -> Result<Answer, EventRefusal>
        ensures { Steps result event self.old self.new }
    {
        stacks_are_lent();
        events_are_whole();
        let _numbered = self.shared.threads.len();
        if !lend(&mut self.shared.stacks, event.thread, &mut self.spare) {
            return Ok(Answer::NotEnabled);
        }
        let result = thread_event(
            &mut self.shared,
            &mut self.spare,
            &self.program,
            event.thread,
            event.pick,
            self.limits.frames as usize,
        );
        give_back(&mut self.shared.stacks, event.thread, &mut self.spare);
        result
    }

    /// Does an event again and again, up to so many times. Returns how often it was done, and why no more.
    pub fn repeat(&mut self, event: Event, most: u32) -> (u32, Stopped)
        ensures { Repeats result event most self.old self.new }
    {
        if event.pick == 0 {
            return self.steps(event.thread, most);
        }
        for done in 0..most {
            match self.step(event) {
                Ok(Answer::Done) => {}
                Ok(Answer::NotEnabled) => return (done, Stopped::NotEnabled),
                Err(refusal) => return (done, Stopped::Refused(refusal)),
            }
        }
        (most, Stopped::Most)
    }

    /// Does up to so many events of a thread, one after another, none of which picks a waiter. Returns how many were
    /// done, and why no more.
    pub fn steps(&mut self, thread: u16, most: u32) -> (u32, Stopped)
        ensures { Repeats result (record { thread = thread; pick = 0 }) most self.old self.new }
    {
        if most == 0 {
            return (0, Stopped::Most);
        }
        if !lend(&mut self.shared.stacks, thread, &mut self.spare) {
            return (0, Stopped::NotEnabled);
        }
        let result = thread_turns(
            &mut self.shared,
            &mut self.spare,
            &self.program,
            self.limits,
            thread,
            most,
        );
        give_back(&mut self.shared.stacks, thread, &mut self.spare);
        result
    }
}
