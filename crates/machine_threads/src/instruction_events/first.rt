//! What comes before an instruction.

ghost use Rattle.machine_threads.specs.instruction_events.Doing.{ComesFirst};

use crate::instruction_needs::class_needed;
use linked_code::{LinkedInstruction, LinkedProgram};
use machine_state::class_initialisation::need_class;
use machine_state::{Answer, EventRefusal, Shared, instructions_are_done};
use thread_stacks::ThreadStack;

/// What comes before the instruction at which a thread stands: the class that it needs (JVMS 5.5). It answers nothing
/// where the event is what the instruction does, and nothing has changed; else it answers what became of the event.
/// An event that picks something waits for no class: its instruction doesn't let it, or needs no class of a file.
///
/// # Errors
///
/// Where there is no memory, or an error can't be made. Nothing has changed then.
pub(crate) fn class_first(
    shared: &mut Shared,
    stack: &mut ThreadStack,
    program: &LinkedProgram,
    thread: u16,
    pick: u16,
    instruction: LinkedInstruction,
) -> Result<Option<Answer>, EventRefusal>
    ensures { ComesFirst program.now instruction (record { thread = thread; pick = pick }) result
        shared.old shared.new stack.old stack.new }
{
    instructions_are_done();
    match class_needed(instruction) {
        Some(class) => {
            if pick == 0 {
                need_class(shared, stack, program, thread, class)
            } else {
                Ok(None)
            }
        }
        None => Ok(None),
    }
}
