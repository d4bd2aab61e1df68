//! Built-in methods that do nothing.

ghost use Rattle.std.specs.Prelude.{ℕ};
ghost use Rattle.machine_state.specs.declared.state.Shared.{Shared};
ghost use Rattle.linked_code.specs.declared.method.BuiltInMethod.TheVariants as method;
ghost use Rattle.machine_instructions.specs.thread_methods.Called.{DoesUnpicked};

use crate::thread_methods::moves::go_on;
use machine_state::{Effect, EventRefusal};
use thread_stacks::ThreadStack;

/// `<init>()V` of a built-in class, which does nothing to its object, and `Thread.yield`, which does nothing.
pub(crate) fn pass(
    stack: &mut ThreadStack,
    operands: usize,
    next: usize,
) -> Result<Effect, EventRefusal>
    ensures construct { (shared : Shared) (t : ℕ)
        → DoesUnpicked method.Construct operands next t result shared shared stack.old stack.new }
    ensures yields { (shared : Shared) (t : ℕ)
        → DoesUnpicked method.ThreadYield operands next t result shared shared stack.old stack.new }
{
    go_on(stack, operands, next);
    Ok(Effect::Done)
}
