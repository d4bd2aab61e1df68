//! `getfield` and `putfield` (JVMS 6.5).

ghost use Rattle.std.specs.Prelude.{ℕ, Ok};
ghost use Rattle.linked_code.specs.declared.instruction.LinkedInstruction.TheVariants as linked;
ghost use Rattle.linked_code.specs.declared.program.LinkedProgram.{LinkedProgram};
ghost use Rattle.machine_state.specs.linked_frames.Frames.{DoesOwn};
ghost use Rattle.machine_instructions.specs.field_instructions.Puts.{put_field_instruction};

use crate::field_instructions::narrowing::kept;
use crate::leaving::{leave, leave_nothing};
use machine_state::{Effect, EventRefusal, MachineException, Shared};
use model::Primitive;
use thread_stacks::ThreadStack;

/// `getfield`: the field in a slot of the object of the operand on top takes the operand's place.
///
/// # Errors
///
/// Where there is no memory for the word on the stack; nothing has changed then.
#[inline]
pub fn get_field(
    shared: &Shared,
    stack: &mut ThreadStack,
    slot: u32,
) -> Result<Effect, EventRefusal>
    ensures { (p : LinkedProgram) (t : ℕ)
        → DoesOwn p (linked.GetField slot) t result shared.now shared.now stack.old stack.new }
{
    let Some(frame) = stack.frame() else {
        return Ok(Effect::NotEnabled);
    };
    match frame.operand(0).checked_sub(1) {
        None => Ok(Effect::Raises(MachineException::NullPointer)),
        Some(object) => leave(stack, 1, shared.heap.get_field(object, slot)),
    }
}

/// `putfield` of a field of a type, of a reference as of an int: the operand on top goes into the field in a slot of
/// the object of the operand under it, narrowed to the type.
#[inline]
pub fn put_field(shared: &mut Shared, stack: &mut ThreadStack, of: Primitive, slot: u32) -> Effect
    ensures { (p : LinkedProgram) (t : ℕ)
        → DoesOwn p (put_field_instruction of slot) t (Ok result) shared.old shared.new stack.old
        stack.new }
{
    let Some(frame) = stack.frame() else {
        return Effect::NotEnabled;
    };
    match frame.operand(1).checked_sub(1) {
        None => Effect::Raises(MachineException::NullPointer),
        Some(object) => {
            let word = kept(of, frame.operand(0));
            shared.heap.put_field(object, slot, word);
            leave_nothing(stack, 2)
        }
    }
}
