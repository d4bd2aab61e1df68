//! Elements of arrays. Those of all arrays are words, and an array narrows what it keeps.

ghost use Rattle.std.specs.Prelude.{ℕ, Ok};
ghost use Rattle.linked_code.specs.declared.instruction.LinkedInstruction.TheVariants as linked;
ghost use Rattle.linked_code.specs.declared.program.LinkedProgram.{LinkedProgram};
ghost use Rattle.machine_state.specs.linked_frames.Frames.{DoesOwn};

use crate::leaving::{leave, leave_nothing};
use machine_state::{Effect, EventRefusal, MachineException, Shared};
use thread_stacks::ThreadStack;

/// `iaload`, `aaload`, `baload`, `caload`, `saload`: the element at the index on top, of the array under it, takes
/// their place.
///
/// # Errors
///
/// Where there is no memory for the word on the stack; nothing has changed then.
#[inline]
pub fn load_element(shared: &Shared, stack: &mut ThreadStack) -> Result<Effect, EventRefusal>
    ensures { (p : LinkedProgram) (t : ℕ)
        → DoesOwn p linked.LoadElement t result shared.now shared.now stack.old stack.new }
{
    let Some(frame) = stack.frame() else {
        return Ok(Effect::NotEnabled);
    };
    let index = frame.operand(0);
    match frame.operand(1).checked_sub(1) {
        None => Ok(Effect::Raises(MachineException::NullPointer)),
        Some(array) => {
            if index < shared.heap.length(array) {
                leave(stack, 2, shared.heap.get_element(array, index))
            } else {
                Ok(Effect::Raises(MachineException::ArrayIndexOutOfBounds))
            }
        }
    }
}

/// The operand on top goes into the array under the index under it, at that index.
#[inline]
fn store(shared: &mut Shared, stack: &mut ThreadStack) -> Effect
    ensures ints { (p : LinkedProgram) (t : ℕ)
        → DoesOwn p linked.StoreInt t (Ok result) shared.old shared.new stack.old stack.new }
    ensures narrow { (p : LinkedProgram) (t : ℕ)
        → DoesOwn p linked.StoreNarrow t (Ok result) shared.old shared.new stack.old stack.new }
{
    let Some(frame) = stack.frame() else {
        return Effect::NotEnabled;
    };
    let index = frame.operand(1);
    match frame.operand(2).checked_sub(1) {
        None => Effect::Raises(MachineException::NullPointer),
        Some(array) => {
            if index < shared.heap.length(array) {
                let word = frame.operand(0);
                shared.heap.put_element(array, index, word);
                leave_nothing(stack, 3)
            } else {
                Effect::Raises(MachineException::ArrayIndexOutOfBounds)
            }
        }
    }
}

/// `iastore`: the operand on top goes into an array of ints.
#[inline]
pub fn store_int(shared: &mut Shared, stack: &mut ThreadStack) -> Effect
    ensures { (p : LinkedProgram) (t : ℕ)
        → DoesOwn p linked.StoreInt t (Ok result) shared.old shared.new stack.old stack.new }
{
    store(shared, stack)
}

/// `bastore`, `castore`, `sastore`: the operand on top goes into an array, narrowed to what the array holds.
#[inline]
pub fn store_narrow(shared: &mut Shared, stack: &mut ThreadStack) -> Effect
    ensures { (p : LinkedProgram) (t : ℕ)
        → DoesOwn p linked.StoreNarrow t (Ok result) shared.old shared.new stack.old stack.new }
{
    store(shared, stack)
}

/// `arraylength`: the length of the array of the operand on top takes its place.
///
/// # Errors
///
/// Where there is no memory for the word on the stack; nothing has changed then.
#[inline]
pub fn array_length(shared: &Shared, stack: &mut ThreadStack) -> Result<Effect, EventRefusal>
    ensures { (p : LinkedProgram) (t : ℕ)
        → DoesOwn p linked.ArrayLength t result shared.now shared.now stack.old stack.new }
{
    let Some(frame) = stack.frame() else {
        return Ok(Effect::NotEnabled);
    };
    match frame.operand(0).checked_sub(1) {
        None => Ok(Effect::Raises(MachineException::NullPointer)),
        Some(array) => leave(stack, 1, shared.heap.length(array)),
    }
}
