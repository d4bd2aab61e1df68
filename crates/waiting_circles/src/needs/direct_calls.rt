//! What `invokestatic` and `invokespecial` need, whose method no receiver's class chooses.

ghost use Rattle.std.specs.Prelude.{ℕ};
ghost use Rattle.linked_code.specs.declared.instruction.LinkedInstruction.TheVariants as linked;
ghost use Rattle.machine_state.specs.declared.state.Shared.{Shared};
ghost use Rattle.waiting_circles.specs.Needs.{NeedsInInstruction};

use crate::needs::frames::call_need;
use crate::needs::kinds::Need;
use linked_code::LinkedProgram;
use machine_instructions::called_methods::{class_object, receiver};
use thread_stacks::ThreadStack;

/// What `invokestatic` needs, its class being ready.
pub(crate) fn static_need(
    stack: &ThreadStack,
    program: &LinkedProgram,
    method: u32,
    frames: usize,
) -> Option<Need>
    ensures { (parameters class : ℕ) (shared : Shared)
        → NeedsInInstruction program.now (linked.InvokeStatic parameters class method) frames result shared
        stack.now }
{
    let object = class_object(program, method);
    call_need(stack, program, method, object, frames)
}

/// What `invokespecial` needs: with a null receiver nothing, since it throws.
pub(crate) fn special_need(
    stack: &ThreadStack,
    program: &LinkedProgram,
    parameters: u8,
    method: u32,
    frames: usize,
) -> Option<Need>
    ensures { (shared : Shared)
        → NeedsInInstruction program.now (linked.InvokeSpecial parameters method) frames result shared stack.now }
{
    let Some(object) = receiver(stack, parameters) else {
        return None;
    };
    call_need(stack, program, method, object, frames)
}
