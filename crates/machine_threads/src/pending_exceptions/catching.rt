//! A frame that goes on at its handler.

ghost use Rattle.std.specs.Prelude.{◌≡◌, OnOk, OnErr};
ghost use Rattle.thread_stacks.specs.Stacks.{operands_on};
ghost use Rattle.machine_threads.specs.pending_exceptions.Caught.{IsCaughtOnTop, HasNoOperand, IsCleared, Catches};

use machine_state::raised_exceptions::word_of;
use machine_state::{Answer, EventRefusal, Shared};
use std::alloc::AllocError;
use thread_stacks::ThreadStack;

/// How many operands the frame on top has.
#[inline]
fn operand_count(stack: &ThreadStack) -> usize
    ensures { result ≡ operands_on stack.now }
{
    match stack.frame() {
        Some(frame) => frame.operands.len(),
        None => 0,
    }
}

/// The frame on top goes on at a handler, with one word alone on its stack. It takes memory only where it had no
/// operand. On an error nothing has changed.
#[inline]
fn catch_on_top(stack: &mut ThreadStack, handler: u16, word: u32) -> Result<(), AllocError>
    ensures ok { OnOk result (IsCaughtOnTop handler word stack.old stack.new) }
    ensures err { OnErr result (stack.new ≡ stack.old) }
    ensures none { OnErr result (HasNoOperand stack.old) }
{
    let count = operand_count(stack);
    stack.replace(count, word)?;
    stack.go_on(usize::from(handler));
    Ok(())
}

/// No exception is pending in a thread any more.
#[inline]
fn clear_pending(shared: &mut Shared, thread: u16)
    ensures { IsCleared thread shared.old shared.new }
{
    shared.threads.set_pending(thread, None);
}

/// The frame on top goes on at a handler, with the reference of the exception alone on its stack (JVMS 2.10), and the
/// exception is not pending any more.
///
/// # Errors
///
/// Where the frame had no operand, and there is no memory for the reference on its stack. Nothing has changed then.
pub(crate) fn catch_in(
    shared: &mut Shared,
    stack: &mut ThreadStack,
    thread: u16,
    handler: u16,
    exception: u32,
) -> Result<Answer, EventRefusal>
    ensures { Catches thread handler exception result shared.old shared.new stack.old stack.new }
{
    let word = word_of(&shared.heap, exception);
    catch_on_top(stack, handler, word)?;
    clear_pending(shared, thread);
    Ok(Answer::Done)
}
