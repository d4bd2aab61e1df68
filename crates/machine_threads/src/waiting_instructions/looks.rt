//! The class that an instruction needs first.

ghost use Rattle.machine_threads.specs.waiting_instructions.Held.{IsLookOf};

use crate::instruction_needs::class_needed;
use linked_code::LinkedInstruction;
use machine_state::Shared;
use machine_state::class_initialisation::{ClassLook, look};

/// How a thread finds the class that an instruction needs (JVMS 5.5); ready where it needs none.
pub(crate) fn look_of(shared: &Shared, thread: u16, instruction: LinkedInstruction) -> ClassLook
    ensures { IsLookOf instruction thread result shared.now }
{
    match class_needed(instruction) {
        Some(class) => look(shared, thread, class),
        None => ClassLook::Ready,
    }
}
