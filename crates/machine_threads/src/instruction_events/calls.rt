//! All instructions: calls, and those that call nothing.

ghost use Rattle.std.specs.Prelude.{◌<◌};
ghost use Rattle.model.specs.BuiltInNumbers.{most_threads};
ghost use Rattle.machine_state.specs.linked_frames.Frames.{CanRun, DoesInstruction};

use crate::instruction_events::own::own_instruction;
use linked_code::{LinkedInstruction, LinkedProgram};
use machine_instructions::called_methods::{
    invoke_interface, invoke_special, invoke_static, invoke_virtual, println,
};
use machine_state::{Effect, EventRefusal, Shared};
use thread_stacks::ThreadStack;

/// Does an instruction. One that calls nothing picks nothing.
pub(crate) fn any_instruction(
    shared: &mut Shared,
    stack: &mut ThreadStack,
    program: &LinkedProgram,
    thread: u16,
    pick: u16,
    frames: usize,
    instruction: LinkedInstruction,
) -> Result<Effect, EventRefusal>
    requires able { CanRun program.now thread shared.old stack.old instruction }
    requires numbered { thread < most_threads }
    ensures { DoesInstruction program.now instruction frames
        (record { thread = thread; pick = pick }) result shared.old shared.new
        stack.old stack.new }
{
    match instruction {
        LinkedInstruction::InvokeStatic {
            parameters,
            method,
            ..
        } => invoke_static(
            shared, stack, program, thread, pick, parameters, method, frames,
        ),
        LinkedInstruction::InvokeSpecial { parameters, method } => invoke_special(
            shared, stack, program, thread, pick, parameters, method, frames,
        ),
        LinkedInstruction::InvokeVirtual { parameters, place } => invoke_virtual(
            shared, stack, program, thread, pick, parameters, place, frames,
        ),
        LinkedInstruction::InvokeInterface {
            parameters,
            selector,
        } => invoke_interface(
            shared, stack, program, thread, pick, parameters, selector, frames,
        ),
        LinkedInstruction::Println => println(shared, stack, program, thread, pick),
        _ => {
            if pick == 0 {
                own_instruction(shared, stack, program, thread, instruction)
            } else {
                Ok(Effect::NotEnabled)
            }
        }
    }
}
