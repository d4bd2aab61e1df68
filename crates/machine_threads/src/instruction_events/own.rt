//! Instructions that call nothing.

ghost use Rattle.std.specs.Prelude.{◌≡◌, false};
ghost use Rattle.machine_state.specs.linked_frames.Frames.{CanRun, DoesOwn};
ghost use Rattle.machine_threads.specs.instruction_events.Families.{is_call};

use crate::instruction_events::fields::field_instruction;
use linked_code::{LinkedInstruction, LinkedProgram};
use machine_instructions::field_instructions::{
    array_length, get_system_stream, load_element, store_int, store_narrow,
};
use machine_instructions::monitor_instructions::{monitor_enter, monitor_exit};
use machine_instructions::returns::return_from;
use machine_instructions::type_instructions::{
    check_cast, instance_of, load_object, new_array, new_object, new_reference_array,
    store_reference, throw,
};
use machine_state::{Effect, EventRefusal, Shared};
use thread_stacks::ThreadStack;

/// Does an instruction that calls nothing (JVMS 2.11), its class, where it needs one, being ready.
///
/// # Errors
///
/// Where a limit stands, or there is no memory. Nothing has changed then.
pub(crate) fn own_instruction(
    shared: &mut Shared,
    stack: &mut ThreadStack,
    program: &LinkedProgram,
    thread: u16,
    instruction: LinkedInstruction,
) -> Result<Effect, EventRefusal>
    requires able { CanRun program.now thread shared.old stack.old instruction }
    requires own { is_call instruction ≡ false }
    ensures { DoesOwn program.now instruction thread result shared.old shared.new stack.old stack.new }
{
    match instruction {
        LinkedInstruction::GetSystemStream(word) => get_system_stream(stack, word),
        LinkedInstruction::LoadElement => load_element(shared, stack),
        LinkedInstruction::StoreInt => Ok(store_int(shared, stack)),
        LinkedInstruction::StoreNarrow => Ok(store_narrow(shared, stack)),
        LinkedInstruction::StoreReference => Ok(store_reference(shared, stack, program)),
        LinkedInstruction::ArrayLength => array_length(shared, stack),
        LinkedInstruction::LoadObject(word) => load_object(stack, word),
        LinkedInstruction::New {
            class,
            cells,
            uncounted,
        } => new_object(shared, stack, class, cells, uncounted),
        LinkedInstruction::NewArray(of) => new_array(shared, stack, of),
        LinkedInstruction::NewReferenceArray(component) => {
            new_reference_array(shared, stack, component)
        }
        LinkedInstruction::CheckCast(of) => Ok(check_cast(shared, stack, program, of)),
        LinkedInstruction::InstanceOf(of) => instance_of(shared, stack, program, of),
        LinkedInstruction::Throw => Ok(throw(stack)),
        LinkedInstruction::MonitorEnter => monitor_enter(shared, stack, thread),
        LinkedInstruction::MonitorExit => Ok(monitor_exit(shared, stack, thread)),
        LinkedInstruction::Return => return_from(shared, stack, program, thread, false),
        LinkedInstruction::ReturnValue => return_from(shared, stack, program, thread, true),
        _ => field_instruction(shared, stack, program, instruction),
    }
}
