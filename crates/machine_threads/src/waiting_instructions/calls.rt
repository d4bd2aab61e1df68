//! For what `invokevirtual` and `invokeinterface` wait, whose method the class of the receiver chooses.

ghost use Rattle.linked_code.specs.declared.instruction.LinkedInstruction.TheVariants as linked;
ghost use Rattle.machine_threads.specs.waiting_instructions.Held.{StandsInInstruction};

use crate::waiting_instructions::kinds::Standing;
use crate::waiting_instructions::methods::call_standing;
use linked_code::LinkedProgram;
use machine_instructions::called_methods::{interface_method, receiver, virtual_method};
use machine_state::Shared;
use thread_stacks::ThreadStack;

/// At `invokevirtual`: a null receiver does not wait, it throws.
pub(crate) fn virtual_standing(
    shared: &Shared,
    stack: &ThreadStack,
    program: &LinkedProgram,
    thread: u16,
    parameters: u8,
    place: u32,
    frames: usize,
) -> Standing
    ensures { StandsInInstruction program.now
        (linked.InvokeVirtual parameters place) frames thread result shared.now stack.now }
{
    let Some(object) = receiver(stack, parameters) else {
        return Standing::Runnable;
    };
    let Some(method) = virtual_method(program, &shared.heap, object, place) else {
        return Standing::Runnable;
    };
    call_standing(shared, stack, program, thread, method, object, frames)
}

/// At `invokeinterface`: neither does a receiver wait that doesn't implement the interface.
pub(crate) fn interface_standing(
    shared: &Shared,
    stack: &ThreadStack,
    program: &LinkedProgram,
    thread: u16,
    parameters: u8,
    selector: u32,
    frames: usize,
) -> Standing
    ensures { StandsInInstruction program.now
        (linked.InvokeInterface parameters selector) frames thread result shared.now stack.now }
{
    let Some(object) = receiver(stack, parameters) else {
        return Standing::Runnable;
    };
    let Some(method) = interface_method(program, &shared.heap, object, selector) else {
        return Standing::Runnable;
    };
    call_standing(shared, stack, program, thread, method, object, frames)
}
