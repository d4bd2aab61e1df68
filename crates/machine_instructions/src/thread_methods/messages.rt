//! The constructors of exceptions that keep a message and a cause.

ghost use Rattle.std.specs.Prelude.{ℕ};
ghost use Rattle.linked_code.specs.declared.method.BuiltInMethod.TheVariants as method;
ghost use Rattle.machine_instructions.specs.thread_methods.Called.{DoesUnpicked};

use crate::thread_methods::moves::{go_on, object, operand};
use machine_state::raised_exceptions::{CAUSE, MESSAGE};
use machine_state::{Effect, EventRefusal, Shared};
use thread_stacks::ThreadStack;

/// `<init>(String)`: the exception keeps its message.
pub(crate) fn set_message(
    shared: &mut Shared,
    stack: &mut ThreadStack,
    operands: usize,
    next: usize,
) -> Result<Effect, EventRefusal>
    ensures { (t : ℕ) → DoesUnpicked method.ConstructWithMessage operands next t result shared.old shared.new
        stack.old stack.new }
{
    let message = operand(stack, 0);
    shared.heap.put_field(object(stack, 1), MESSAGE, message);
    go_on(stack, operands, next);
    Ok(Effect::Done)
}

/// `<init>(String, Throwable)`: the exception keeps its message and its cause.
pub(crate) fn set_cause(
    shared: &mut Shared,
    stack: &mut ThreadStack,
    operands: usize,
    next: usize,
) -> Result<Effect, EventRefusal>
    ensures { (t : ℕ) → DoesUnpicked method.ConstructWithCause operands next t result shared.old shared.new
        stack.old stack.new }
{
    let exception = object(stack, 2);
    let (message, cause) = (operand(stack, 1), operand(stack, 0));
    shared.heap.put_field(exception, MESSAGE, message);
    shared.heap.put_field(exception, CAUSE, cause);
    go_on(stack, operands, next);
    Ok(Effect::Done)
}
