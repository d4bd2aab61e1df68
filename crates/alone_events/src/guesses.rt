//! Guesses at events that are alone, by the instruction of the frame on top. Nothing is proved of them.

use heap::Heap;
use linked_code::{LinkedInstruction, LinkedProgram, MethodBody};
use machine_instructions::called_methods::{interface_method, receiver, virtual_method};
use machine_state::Shared;
use machine_state::class_initialisation::{ClassLook, look};
use machine_state::linked_frames::instruction_at;
use machine_state::method_selection::method_at;
use thread_stacks::ThreadStack;

/// Whether a method has code and is not synchronized.
fn is_plain(program: &LinkedProgram, method: Option<u32>) -> bool {
    let Some(number) = method else {
        return false;
    };
    let Some(row) = method_at(program, number) else {
        return false;
    };
    match &row.body {
        MethodBody::Code(_) => !row.is_synchronized,
        MethodBody::Abstract | MethodBody::BuiltIn(_) => false,
    }
}

/// Whether a class is initialised, or the thread itself is at it.
fn is_ready(shared: &Shared, thread: u16, class: u16) -> bool {
    match look(shared, thread, class) {
        ClassLook::Ready => true,
        ClassLook::New | ClassLook::Held | ClassLook::Failed => false,
    }
}

/// The method that a call runs; none where the instruction is no call, or the receiver is null.
fn called(
    program: &LinkedProgram,
    heap: &Heap,
    stack: &ThreadStack,
    instruction: LinkedInstruction,
) -> Option<u32> {
    match instruction {
        LinkedInstruction::InvokeStatic { method, .. } => Some(method),
        LinkedInstruction::InvokeSpecial { parameters, method } => {
            let _object = receiver(stack, parameters)?;
            Some(method)
        }
        LinkedInstruction::InvokeVirtual { parameters, place } => {
            let object = receiver(stack, parameters)?;
            virtual_method(program, heap, object, place)
        }
        LinkedInstruction::InvokeInterface {
            parameters,
            selector,
        } => {
            let object = receiver(stack, parameters)?;
            interface_method(program, heap, object, selector)
        }
        _ => None,
    }
}

/// The object whose monitor the instruction of the frame on top leaves: the one on top of its operands, or the one that
/// the frame has entered.
fn left_by(stack: &ThreadStack, instruction: LinkedInstruction) -> Option<u32> {
    match instruction {
        LinkedInstruction::MonitorExit => receiver(stack, 0),
        LinkedInstruction::Return | LinkedInstruction::ReturnValue => stack.frame()?.entered,
        _ => None,
    }
}

/// Whether the monitor of an object was entered once.
fn is_entered_once(heap: &Heap, object: u32) -> bool {
    object < heap.len() && heap.entries(object) == 1
}

/// The object whose monitor a thread that runs, with no exception pending, is likely to leave for good by its next
/// event, where it owns that.
pub(crate) fn likely_left(program: &LinkedProgram, shared: &Shared, thread: u16) -> Option<u32> {
    let stack = shared.stacks.get(usize::from(thread))?;
    let instruction = instruction_at(program, stack)?;
    let object = left_by(stack, instruction)?;
    if is_entered_once(&shared.heap, object) {
        Some(object)
    } else {
        None
    }
}

/// Whether the frame on top has entered no monitor, and is not the only entry.
fn returns_alone(stack: &ThreadStack) -> bool {
    match stack.frame() {
        Some(frame) => frame.entered.is_none() && stack.len() > 1,
        None => false,
    }
}

/// Whether the next event of a thread that runs, with no exception pending, is likely to be alone: a call or a return
/// by which no monitor is entered or left. A stack has at most so many frames.
pub(crate) fn is_likely(
    program: &LinkedProgram,
    shared: &Shared,
    thread: u16,
    frames: usize,
) -> bool {
    let Some(stack) = shared.stacks.get(usize::from(thread)) else {
        return false;
    };
    let Some(instruction) = instruction_at(program, stack) else {
        return false;
    };
    match instruction {
        LinkedInstruction::Return | LinkedInstruction::ReturnValue => returns_alone(stack),
        LinkedInstruction::InvokeStatic { class, .. } if !is_ready(shared, thread, class) => false,
        _ => {
            let method = called(program, &shared.heap, stack, instruction);
            stack.frame_count() < frames && is_plain(program, method)
        }
    }
}
