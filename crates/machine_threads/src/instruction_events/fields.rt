//! Instructions on fields, and those that touch their frame alone.

ghost use Rattle.machine_threads.specs.instruction_events.Doing.{DoesFieldOrLocal};

use linked_code::{LinkedInstruction, LinkedProgram};
use machine_instructions::field_instructions::{get_field, get_static, put_field, put_static};
use machine_instructions::local_instructions::local_instruction;
use machine_state::{Effect, EventRefusal, Shared};
use model::Primitive;
use thread_stacks::ThreadStack;

/// Does an instruction on a field, or one that touches its frame alone.
#[inline]
pub(crate) fn field_instruction(
    shared: &mut Shared,
    stack: &mut ThreadStack,
    program: &LinkedProgram,
    instruction: LinkedInstruction,
) -> Result<Effect, EventRefusal>
    ensures { DoesFieldOrLocal program.now instruction result shared.old shared.new stack.old stack.new }
{
    match instruction {
        LinkedInstruction::GetField(slot) => get_field(shared, stack, slot),
        LinkedInstruction::PutField(slot) => Ok(put_field(shared, stack, Primitive::Int, slot)),
        LinkedInstruction::PutBooleanField(slot) => {
            Ok(put_field(shared, stack, Primitive::Boolean, slot))
        }
        LinkedInstruction::PutByteField(slot) => {
            Ok(put_field(shared, stack, Primitive::Byte, slot))
        }
        LinkedInstruction::PutCharField(slot) => {
            Ok(put_field(shared, stack, Primitive::Char, slot))
        }
        LinkedInstruction::PutShortField(slot) => {
            Ok(put_field(shared, stack, Primitive::Short, slot))
        }
        LinkedInstruction::GetStatic { slot, .. } => get_static(shared, stack, slot),
        LinkedInstruction::PutStatic { slot, .. } => {
            Ok(put_static(shared, stack, Primitive::Int, slot))
        }
        LinkedInstruction::PutBooleanStatic { slot, .. } => {
            Ok(put_static(shared, stack, Primitive::Boolean, slot))
        }
        LinkedInstruction::PutByteStatic { slot, .. } => {
            Ok(put_static(shared, stack, Primitive::Byte, slot))
        }
        LinkedInstruction::PutCharStatic { slot, .. } => {
            Ok(put_static(shared, stack, Primitive::Char, slot))
        }
        LinkedInstruction::PutShortStatic { slot, .. } => {
            Ok(put_static(shared, stack, Primitive::Short, slot))
        }
        _ => local_instruction(program, stack),
    }
}
