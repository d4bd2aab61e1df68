//! What the instruction of the frame on top needs.

ghost use Rattle.waiting_circles.specs.Needs.{NeedsReady, NeedsAtInstruction, NeedsAtFrame};

use crate::needs::calls::{interface_need, virtual_need};
use crate::needs::direct_calls::{special_need, static_need};
use crate::needs::kinds::Need;
use linked_code::{LinkedInstruction, LinkedProgram};
use machine_instructions::called_methods::receiver;
use machine_state::Shared;
use machine_state::class_initialisation::{ClassLook, look};
use machine_state::linked_frames::{frames_stand, instruction_at};
use machine_threads::instruction_needs::class_needed;
use thread_stacks::ThreadStack;

/// What an instruction needs whose class is ready, where it needs one: only `monitorenter` and calls need a monitor.
fn ready_need(
    shared: &Shared,
    stack: &ThreadStack,
    program: &LinkedProgram,
    frames: usize,
    instruction: LinkedInstruction,
) -> Option<Need>
    ensures { NeedsReady program.now instruction frames result shared.now stack.now }
{
    match instruction {
        LinkedInstruction::MonitorEnter => match receiver(stack, 0) {
            Some(object) => Some(Need::Monitor(object)),
            None => None,
        },
        LinkedInstruction::InvokeStatic { method, .. } => static_need(
            stack, program, method, frames,
        ),
        LinkedInstruction::InvokeSpecial { parameters, method } => {
            special_need(stack, program, parameters, method, frames)
        }
        LinkedInstruction::InvokeVirtual { parameters, place } => {
            virtual_need(shared, stack, program, parameters, place, frames)
        }
        LinkedInstruction::InvokeInterface {
            parameters,
            selector,
        } => interface_need(shared, stack, program, parameters, selector, frames),
        _ => None,
    }
}

/// What an instruction needs: the class first, if another thread is at it (JVMS 5.5).
fn instruction_need(
    shared: &Shared,
    stack: &ThreadStack,
    program: &LinkedProgram,
    thread: u16,
    frames: usize,
    instruction: LinkedInstruction,
) -> Option<Need>
    ensures { NeedsAtInstruction program.now instruction thread frames result shared.now stack.now }
{
    let Some(class) = class_needed(instruction) else {
        return ready_need(shared, stack, program, frames, instruction);
    };
    match look(shared, thread, class) {
        ClassLook::Ready => ready_need(shared, stack, program, frames, instruction),
        ClassLook::Held => Some(Need::Class(class)),
        ClassLook::New => None,
        ClassLook::Failed => None,
    }
}

/// What a thread needs with a frame on top, by the instruction at which this stands.
pub(crate) fn frame_on_top_need(
    shared: &Shared,
    stack: &ThreadStack,
    program: &LinkedProgram,
    thread: u16,
    frames: usize,
) -> Option<Need>
    ensures { NeedsAtFrame program.now shared.now stack.now thread frames result }
{
    frames_stand();
    match instruction_at(program, stack) {
        Some(instruction) => instruction_need(shared, stack, program, thread, frames, instruction),
        None => None,
    }
}
