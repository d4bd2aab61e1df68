//! What `invokevirtual` and `invokeinterface` need, whose method the class of the receiver chooses.

ghost use Rattle.linked_code.specs.declared.instruction.LinkedInstruction.TheVariants as linked;
ghost use Rattle.waiting_circles.specs.Needs.{NeedsInInstruction};

use crate::needs::frames::call_need;
use crate::needs::kinds::Need;
use linked_code::LinkedProgram;
use machine_instructions::called_methods::{interface_method, receiver, virtual_method};
use machine_state::Shared;
use thread_stacks::ThreadStack;

/// What `invokevirtual` needs: with a null receiver nothing, since it throws.
pub(crate) fn virtual_need(
    shared: &Shared,
    stack: &ThreadStack,
    program: &LinkedProgram,
    parameters: u8,
    place: u32,
    frames: usize,
) -> Option<Need>
    ensures { NeedsInInstruction program.now (linked.InvokeVirtual parameters place) frames result shared.now
        stack.now }
{
    let Some(object) = receiver(stack, parameters) else {
        return None;
    };
    let Some(method) = virtual_method(program, &shared.heap, object, place) else {
        return None;
    };
    call_need(stack, program, method, object, frames)
}

/// What `invokeinterface` needs: nothing either with a receiver that doesn't implement the interface.
pub(crate) fn interface_need(
    shared: &Shared,
    stack: &ThreadStack,
    program: &LinkedProgram,
    parameters: u8,
    selector: u32,
    frames: usize,
) -> Option<Need>
    ensures { NeedsInInstruction program.now (linked.InvokeInterface parameters selector) frames result shared.now
        stack.now }
{
    let Some(object) = receiver(stack, parameters) else {
        return None;
    };
    let Some(method) = interface_method(program, &shared.heap, object, selector) else {
        return None;
    };
    call_need(stack, program, method, object, frames)
}
