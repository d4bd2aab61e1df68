//! For what an instruction waits whose class is ready.

ghost use Rattle.machine_threads.specs.waiting_instructions.Held.{StandsReady};

use crate::waiting_instructions::calls::{interface_standing, virtual_standing};
use crate::waiting_instructions::direct_calls::{special_standing, static_standing};
use crate::waiting_instructions::kinds::Standing;
use crate::waiting_instructions::monitors::may_enter_top;
use linked_code::{LinkedInstruction, LinkedProgram};
use machine_state::Shared;
use thread_stacks::ThreadStack;

/// How a thread stands at an instruction whose class is ready, where it needs one: only `monitorenter` and calls may
/// wait.
pub(crate) fn ready_standing(
    shared: &Shared,
    stack: &ThreadStack,
    program: &LinkedProgram,
    thread: u16,
    frames: usize,
    instruction: LinkedInstruction,
) -> Standing
    ensures { StandsReady program.now instruction frames thread result shared.now stack.now }
{
    match instruction {
        LinkedInstruction::MonitorEnter => {
            if may_enter_top(shared, stack, thread) {
                Standing::Runnable
            } else {
                Standing::Blocked
            }
        }
        LinkedInstruction::InvokeStatic { method, .. } => {
            static_standing(shared, stack, program, thread, method, frames)
        }
        LinkedInstruction::InvokeSpecial { parameters, method } => {
            special_standing(shared, stack, program, thread, parameters, method, frames)
        }
        LinkedInstruction::InvokeVirtual { parameters, place } => {
            virtual_standing(shared, stack, program, thread, parameters, place, frames)
        }
        LinkedInstruction::InvokeInterface {
            parameters,
            selector,
        } => interface_standing(shared, stack, program, thread, parameters, selector, frames),
        _ => Standing::Runnable,
    }
}
