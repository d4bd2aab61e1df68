//! For what `invokestatic` and `invokespecial` wait, whose method no receiver's class chooses.

ghost use Rattle.std.specs.Prelude.{ℕ};
ghost use Rattle.linked_code.specs.declared.instruction.LinkedInstruction.TheVariants as linked;
ghost use Rattle.machine_threads.specs.waiting_instructions.Held.{StandsInInstruction};

use crate::waiting_instructions::kinds::Standing;
use crate::waiting_instructions::methods::call_standing;
use linked_code::LinkedProgram;
use machine_instructions::called_methods::{class_object, receiver};
use machine_state::Shared;
use thread_stacks::ThreadStack;

/// At `invokestatic`, its class being ready.
pub(crate) fn static_standing(
    shared: &Shared,
    stack: &ThreadStack,
    program: &LinkedProgram,
    thread: u16,
    method: u32,
    frames: usize,
) -> Standing
    ensures { (parameters class : ℕ)
        → StandsInInstruction program.now (linked.InvokeStatic parameters class method) frames thread result
        shared.now stack.now }
{
    let object = class_object(program, method);
    call_standing(shared, stack, program, thread, method, object, frames)
}

/// At `invokespecial`: a null receiver does not wait, it throws.
pub(crate) fn special_standing(
    shared: &Shared,
    stack: &ThreadStack,
    program: &LinkedProgram,
    thread: u16,
    parameters: u8,
    method: u32,
    frames: usize,
) -> Standing
    ensures { StandsInInstruction program.now
        (linked.InvokeSpecial parameters method) frames thread result shared.now stack.now }
{
    let Some(object) = receiver(stack, parameters) else {
        return Standing::Runnable;
    };
    call_standing(shared, stack, program, thread, method, object, frames)
}
