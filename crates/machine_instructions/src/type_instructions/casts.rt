//! Tests of types: `checkcast` and `instanceof` (JVMS 6.5).

ghost use Rattle.std.specs.Prelude.{ℕ, Ok};
ghost use Rattle.linked_code.specs.declared.instruction.LinkedInstruction.TheVariants as linked;
ghost use Rattle.machine_state.specs.linked_frames.Frames.{DoesOwn};
ghost use Rattle.machine_instructions.specs.type_instructions.Words.{TestsWord, TestsInstance};

use crate::leaving::{leave, leave_nothing};
use heap::Heap;
use linked_code::{LinkedProgram, LinkedType};
use machine_state::type_tests::is_object_below;
use machine_state::{Effect, EventRefusal, MachineException, Shared};
use thread_stacks::ThreadStack;

/// Whether a word is null or that of an instance of a type.
#[inline]
pub(crate) fn may_be(program: &LinkedProgram, heap: &Heap, word: u32, of: LinkedType) -> bool
    ensures { TestsWord program.now heap.now.objects word of result }
{
    match word.checked_sub(1) {
        Some(object) => is_object_below(program, heap, object, of),
        None => true,
    }
}

/// 1 for the word of an instance of a type, 0 for null and anything else.
#[inline]
fn instance_bit(program: &LinkedProgram, heap: &Heap, word: u32, of: LinkedType) -> u32
    ensures { TestsInstance program.now heap.now.objects word of result }
{
    match word.checked_sub(1) {
        Some(object) => u32::from(is_object_below(program, heap, object, of)),
        None => 0,
    }
}

/// `checkcast`: null and an instance of the type stay on the stack; anything else is a ClassCastException.
#[inline]
pub fn check_cast(
    shared: &Shared,
    stack: &mut ThreadStack,
    program: &LinkedProgram,
    of: LinkedType,
) -> Effect
    ensures { (t : ℕ) → DoesOwn program.now (linked.CheckCast of) t
        (Ok result) shared.now shared.now stack.old stack.new }
{
    let Some(frame) = stack.frame() else {
        return Effect::NotEnabled;
    };
    if may_be(program, &shared.heap, frame.operand(0), of) {
        leave_nothing(stack, 0)
    } else {
        Effect::Raises(MachineException::ClassCast)
    }
}

/// `instanceof`: 1 for an instance of the type, 0 for null and anything else.
///
/// # Errors
///
/// Where there is no memory for the word on the stack; nothing has changed then.
#[inline]
pub fn instance_of(
    shared: &Shared,
    stack: &mut ThreadStack,
    program: &LinkedProgram,
    of: LinkedType,
) -> Result<Effect, EventRefusal>
    ensures { (t : ℕ) → DoesOwn program.now (linked.InstanceOf of) t result shared.now shared.now stack.old stack.new }
{
    let Some(frame) = stack.frame() else {
        return Ok(Effect::NotEnabled);
    };
    let bit = instance_bit(program, &shared.heap, frame.operand(0), of);
    leave(stack, 1, bit)
}
