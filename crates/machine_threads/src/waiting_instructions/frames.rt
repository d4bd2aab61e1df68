//! What an instruction that may wait reads of its frame.

ghost use Rattle.std.specs.Prelude.{◌≡◌, ◌-◌};
ghost use Rattle.machine_instructions.specs.thread_methods.Moves.{operand_of};

use thread_stacks::ThreadStack;

/// The operand on top, 0 where there is none.
fn operand_on_top(stack: &ThreadStack) -> u32
    ensures { result ≡ operand_of 0 stack.now }
{
    match stack.frame() {
        Some(frame) => frame.operand(0),
        None => 0,
    }
}

/// The object of the reference on top, which is not null.
pub(crate) fn object_on_top(stack: &ThreadStack) -> u32
    ensures { result ≡ operand_of 0 stack.now - 1 }
{
    operand_on_top(stack).saturating_sub(1)
}
