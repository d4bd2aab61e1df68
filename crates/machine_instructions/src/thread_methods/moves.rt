//! What a call reads of the frame that calls, and what it makes of it.

ghost use Rattle.std.specs.Prelude.{◌≡◌, ◌-◌, [], ◌∷◌};
ghost use Rattle.thread_stacks.specs.Stacks.{on_top, without};
ghost use Rattle.machine_instructions.specs.thread_methods.Moves.{operand_of, went_on, Answers};

use machine_state::{Effect, EventRefusal};
use thread_stacks::ThreadStack;

/// The operand under so many others, 0 where there is none.
#[inline]
pub(crate) fn operand(stack: &ThreadStack, under: usize) -> u32
    ensures { result ≡ operand_of under stack.now }
{
    match stack.frame() {
        Some(frame) => frame.operand(under),
        None => 0,
    }
}

/// The object of a reference under so many operands, which is not null.
#[inline]
pub(crate) fn object(stack: &ThreadStack, under: usize) -> u32
    ensures { result ≡ operand_of under stack.now - 1 }
{
    operand(stack, under).saturating_sub(1)
}

/// Takes so many operands, and goes on at a place.
#[inline]
pub(crate) fn go_on(stack: &mut ThreadStack, operands: usize, next: usize)
    ensures { stack.new ≡ on_top (went_on operands [] next) stack.old }
{
    stack.pop(operands);
    stack.go_on(next);
}

/// Takes so many operands, and stays at the call.
#[inline]
pub(crate) fn stay(stack: &mut ThreadStack, operands: usize)
    ensures { stack.new ≡ on_top (without operands) stack.old }
{
    stack.pop(operands);
}

/// Goes on at a place with a result in the place of so many operands, and answers that the call is done.
///
/// # Errors
///
/// Where there are more operands then, and no memory for them. Nothing has changed then.
#[inline]
pub(crate) fn answer(
    stack: &mut ThreadStack,
    operands: usize,
    next: usize,
    word: u32,
) -> Result<Effect, EventRefusal>
    ensures { Answers result operands word next stack.old stack.new }
{
    stack.replace(operands, word)?;
    stack.go_on(next);
    Ok(Effect::Done)
}
