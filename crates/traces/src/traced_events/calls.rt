//! Which method an instruction calls (JVMS 6.5).

use heap::{Heap, ObjectKind};
use linked_code::{LinkedInstruction, LinkedProgram};
use machine_state::method_selection::{class_of_kind, select_interface, select_virtual};

/// Under how many operands the receiver lies.
pub(crate) fn receiver_place(instruction: LinkedInstruction) -> usize {
    match instruction {
        LinkedInstruction::InvokeSpecial { parameters, .. }
        | LinkedInstruction::InvokeVirtual { parameters, .. }
        | LinkedInstruction::InvokeInterface { parameters, .. } => usize::from(parameters),
        _ => 0,
    }
}

/// The class of the object of a word, whose methods it has.
fn class_of_word(heap: &Heap, word: u32) -> Option<u32> {
    let object = word.checked_sub(1)?;
    let kind: ObjectKind = heap.class_of(object)?;
    Some(class_of_kind(kind))
}

/// The number of the method that an instruction calls on a receiver, if it calls one.
pub(crate) fn called_method(
    program: &LinkedProgram,
    heap: &Heap,
    instruction: Option<LinkedInstruction>,
    receiver: u32,
) -> Option<u32> {
    match instruction? {
        LinkedInstruction::InvokeStatic { method, .. }
        | LinkedInstruction::InvokeSpecial { method, .. } => Some(method),
        LinkedInstruction::InvokeVirtual { place, .. } => {
            select_virtual(program, class_of_word(heap, receiver)?, place)
        }
        LinkedInstruction::InvokeInterface { selector, .. } => {
            select_interface(program, class_of_word(heap, receiver)?, selector)
        }
        _ => None,
    }
}
