//! What is kept of a thread while it does an event.

ghost use Rattle.std.specs.Prelude.{◌≡◌, OnOk};
ghost use Rattle.traces.specs.traced_events.Places.{IsSeen, IsSeenOf};
ghost use Rattle.traces.specs.traced_events.Seen.{IsFrameSeen};

use crate::traced_events::built_in::built_in_called;
use crate::traced_events::calls::{called_method, receiver_place};
use crate::traced_events::frames::{FrameBefore, frame_on_top};
use crate::traced_events::monitors::waiting_on;
use crate::traced_events::rules::{Rule, rule_of};
use linked_code::{BuiltInMethod, LinkedInstruction, LinkedProgram};
use machine_state::Shared;
use machine_state::linked_frames::instruction_at;
use std::alloc::{AllocError, Global};
use thread_stacks::{Frame, ThreadStack, Top};

/// What is known of a thread before its event. It serves for one event after another.
#[derive(Drop)]
pub struct Before {
    pub rule: Rule,
    /// The frame on top of its stack, if there is a frame on top.
    pub frame: Option<FrameBefore>,
    /// The class on top of its stack, by its number, if the thread initialises one there.
    pub class: Option<u16>,
    /// The instruction at which it stands.
    pub(crate) instruction: Option<LinkedInstruction>,
    /// How many frames its stack has.
    pub(crate) frames: usize,
    /// The operands on top of its frame, the topmost first.
    pub(crate) operands: [u32; 3],
    /// The word of the receiver of the method that the instruction calls.
    pub(crate) receiver: u32,
    /// The number of the method that the instruction calls.
    pub(crate) called: Option<u32>,
    /// The threads that wait on the object of a notify, in the order in which they joined.
    pub(crate) waiting: Vec<u16>,
    /// How many units were printed.
    pub(crate) printed: usize,
    /// How many objects there were.
    pub(crate) objects: u32,
}

/// The operands on top of a frame, the topmost first.
fn operands_of(frame: Option<Frame<'_>>) -> [u32; 3] {
    match frame {
        Some(frame) => [frame.operand(0), frame.operand(1), frame.operand(2)],
        None => [0, 0, 0],
    }
}

/// The word of the receiver of the method that an instruction calls.
fn receiver_of(frame: Option<Frame<'_>>, instruction: Option<LinkedInstruction>) -> u32 {
    match (frame, instruction) {
        (Some(frame), Some(instruction)) => frame.operand(receiver_place(instruction)),
        _ => 0,
    }
}

/// The class on top of a stack, by its number, if there is a class on top.
pub fn class_on_top(stack: &ThreadStack) -> Option<u16>
    ensures { (p : _) (frame : _) → IsFrameSeen p stack.now frame → IsSeen p stack.now frame result }
{
    match stack.top() {
        Top::Initialisation { class, .. } => Some(class),
        Top::Empty | Top::Invocation => None,
    }
}

/// The instruction that a thread does next.
fn instruction_of(
    rule: Rule,
    program: &LinkedProgram,
    stack: &ThreadStack,
) -> Option<LinkedInstruction> {
    match rule {
        Rule::Bytecode => instruction_at(program, stack),
        _ => None,
    }
}

impl Before {
    /// What is known of no thread.
    pub fn new(alloc: Global) -> Before {
        Before {
            rule: Rule::NoEvent,
            frame: None,
            class: None,
            instruction: None,
            frames: 0,
            operands: [0, 0, 0],
            receiver: 0,
            called: None,
            waiting: Vec::new(alloc),
            printed: 0,
            objects: 0,
        }
    }

    /// The threads that waited on the object of a notify, in the order in which they joined.
    pub fn waiting(&self) -> &[u16] {
        &self.waiting
    }

    /// Looks at the stack of a thread.
    fn look_at_stack(&mut self, shared: &Shared, program: &LinkedProgram, stack: &ThreadStack)
        ensures { IsSeen program.now stack.now self.new.frame self.new.class }
    {
        self.printed = shared.printed.len();
        self.objects = shared.heap.len();
        self.frames = stack.frame_count();
        self.operands = operands_of(stack.frame());
        self.instruction = instruction_of(self.rule, program, stack);
        self.receiver = receiver_of(stack.frame(), self.instruction);
        self.called = called_method(program, &shared.heap, self.instruction, self.receiver);
        self.frame = frame_on_top(program, stack);
        self.class = class_on_top(stack);
    }

    /// Looks at who waits for the notify that the instruction calls.
    fn look_at_waiting(
        &mut self,
        shared: &Shared,
        program: &LinkedProgram,
    ) -> Result<(), AllocError>
        ensures frame { self.new.frame ≡ self.old.frame }
        ensures class { self.new.class ≡ self.old.class }
    {
        self.waiting.clear();
        match built_in_called(program, self.called) {
            Some(BuiltInMethod::ObjectNotify | BuiltInMethod::ObjectNotifyAll) => {
                waiting_on(&shared.heap, self.receiver, &mut self.waiting)
            }
            _ => Ok(()),
        }
    }

    /// Looks at a thread before its event, by its number. The only error is a want of memory.
    pub fn look(
        &mut self,
        shared: &Shared,
        program: &LinkedProgram,
        thread: u16,
    ) -> Result<(), AllocError>
        ensures { OnOk result (IsSeenOf program.now shared.now thread self.new.frame self.new.class) }
    {
        match shared.stacks.get(usize::from(thread)) {
            Some(stack) => {
                self.rule = rule_of(shared, stack, thread);
                self.look_at_stack(shared, program, stack);
                self.look_at_waiting(shared, program)
            }
            None => {
                self.rule = Rule::NoEvent;
                self.frame = None;
                self.class = None;
                Ok(())
            }
        }
    }
}
