//! How an instruction that is done leaves the frame on top.

ghost use Rattle.std.specs.Prelude.{◌≡◌, ◌+◌, ◌<◌, ◌^◌, ◌∷◌, [], Ok, Some};
ghost use Rattle.thread_stacks.specs.Stacks.{ShownFrame, IsTopFrame};
ghost use Rattle.machine_instructions.specs.Leaving.{LeavesTop};

use machine_state::{Effect, EventRefusal};
use thread_stacks::ThreadStack;

/// The place behind that of the frame on top; 0 where no frame is on top.
#[inline]
pub(crate) fn next_place(stack: &ThreadStack) -> usize
    ensures { (f : ShownFrame) → IsTopFrame stack.now (Some f) → f.place < 2 ^ 63 → result ≡ f.place + 1 }
{
    match stack.frame() {
        Some(frame) => frame.place.saturating_add(1),
        None => 0,
    }
}

/// A word takes the place of so many operands of the frame on top, and that goes on at the next place.
///
/// # Errors
///
/// Where there are more operands then, and no memory for them; nothing has changed then.
#[inline]
pub(crate) fn leave(
    stack: &mut ThreadStack,
    count: usize,
    word: u32,
) -> Result<Effect, EventRefusal>
    ensures { LeavesTop result count (word ∷ []) stack.old stack.new }
{
    let next = next_place(stack);
    stack.replace(count, word)?;
    stack.go_on(next);
    Ok(Effect::Done)
}

/// So many operands of the frame on top go, and that goes on at the next place.
#[inline]
pub(crate) fn leave_nothing(stack: &mut ThreadStack, count: usize) -> Effect
    ensures { LeavesTop (Ok result) count [] stack.old stack.new }
{
    let next = next_place(stack);
    stack.pop(count);
    stack.go_on(next);
    Effect::Done
}
