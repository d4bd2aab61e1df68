//! Objects that are made, loaded and thrown.

ghost use Rattle.std.specs.Prelude.{ℕ, Ok};
ghost use Rattle.linked_code.specs.declared.instruction.LinkedInstruction.TheVariants as linked;
ghost use Rattle.linked_code.specs.declared.program.LinkedProgram.{LinkedProgram};
ghost use Rattle.machine_state.specs.declared.state.Shared.{Shared};
ghost use Rattle.machine_state.specs.linked_frames.Frames.{DoesOwn};

use crate::leaving::leave;
use crate::type_instructions::allocation::leave_new;
use machine_state::{Effect, EventRefusal, MachineException, Shared};
use thread_stacks::ThreadStack;

/// `ldc` of an object that is there from the start: its word, the reference and one, goes onto the stack.
///
/// # Errors
///
/// Where there is no memory for the word; nothing has changed then.
#[inline]
pub fn load_object(stack: &mut ThreadStack, word: u32) -> Result<Effect, EventRefusal>
    ensures { (p : LinkedProgram) (t : ℕ) (shared : Shared)
        → DoesOwn p (linked.LoadObject word) t result shared shared stack.old stack.new }
{
    match stack.frame() {
        Some(_frame) => leave(stack, 0, word),
        None => Ok(Effect::NotEnabled),
    }
}

/// `new`: an object of a class, whose fields are 0 or null; so many of them count as cells, and so many don't. That the
/// class is initialised is asked before.
///
/// # Errors
///
/// Where as many objects as may be were made, there would be more cells than may be, or there is no memory. Nothing has
/// changed then.
#[inline]
pub fn new_object(
    shared: &mut Shared,
    stack: &mut ThreadStack,
    class: u16,
    cells: u16,
    uncounted: u8,
) -> Result<Effect, EventRefusal>
    ensures { (p : LinkedProgram) (t : ℕ)
        → DoesOwn p (linked.New class cells uncounted) t result shared.old shared.new stack.old stack.new }
{
    let Some(_frame) = stack.frame() else {
        return Ok(Effect::NotEnabled);
    };
    let cells = u32::from(cells);
    let fields = cells + u32::from(uncounted);
    leave_new(&mut shared.heap, stack, u32::from(class), fields, cells)
}

/// `athrow`: the object of the operand on top is thrown, or a NullPointerException where that is null. The stack
/// stays as it is.
#[inline]
pub fn throw(stack: &ThreadStack) -> Effect
    ensures { (p : LinkedProgram) (t : ℕ) (shared : Shared)
        → DoesOwn p linked.Throw t (Ok result) shared shared stack.now stack.now }
{
    let Some(frame) = stack.frame() else {
        return Effect::NotEnabled;
    };
    match frame.operand(0).checked_sub(1) {
        Some(exception) => Effect::Throws(exception),
        None => Effect::Raises(MachineException::NullPointer),
    }
}
