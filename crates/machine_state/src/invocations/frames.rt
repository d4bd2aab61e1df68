//! New frames: of a call, and of the first method of a thread.

ghost use Rattle.std.specs.Prelude.{◌≡◌, ◌<◌};
ghost use Rattle.model.specs.BuiltInNumbers.{most_threads};
ghost use Rattle.thread_stacks.specs.Stacks.{operands_on};
ghost use Rattle.machine_state.specs.invocations.Entering.{IsThere};
ghost use Rattle.machine_state.specs.invocations.Calls.{DoesCall, DoesFirstCall};

use crate::invocations::entering::{enter_for, may_begin};
use crate::{Effect, EventRefusal, MachineException, Shared};
use thread_stacks::{Callee, ThreadStack};

/// How many operands the frame on top has.
fn operand_count(stack: &ThreadStack) -> usize
    ensures { result ≡ operands_on stack.now }
{
    match stack.frame() {
        Some(frame) => frame.operands.len(),
        None => 0,
    }
}

/// The frame on top calls a method with code: a new frame stands over it, whose first local variables are its last
/// operands, so many as the method has parameters and a receiver, and they are taken from it. The thread enters the
/// monitor of a synchronized method. A stack has at most so many frames; where it has, a StackOverflowError is raised
/// (JVMS 2.5.2), and where another thread owns the monitor, the event isn't enabled.
///
/// # Errors
///
/// At the limits of fat locks and of the entries of an owner, or where there is no memory. Nothing has changed then.
pub fn call(
    shared: &mut Shared,
    stack: &mut ThreadStack,
    thread: u16,
    callee: Callee,
    parameters: usize,
    frames: usize,
) -> Result<Effect, EventRefusal>
    requires there { IsThere callee.entered shared.old.heap }
    requires numbered { thread < most_threads }
    ensures { DoesCall result thread callee parameters frames shared.old shared.new stack.old stack.new }
{
    if stack.frame_count() >= frames {
        return Ok(Effect::Raises(MachineException::StackOverflow));
    }
    if !may_begin(&shared.heap, thread, callee.entered) {
        return Ok(Effect::NotEnabled);
    }
    let taken = parameters.min(operand_count(stack));
    stack.call(callee, parameters)?;
    match enter_for(shared, thread, callee.entered) {
        Ok(()) => Ok(Effect::Done),
        Err(refusal) => {
            stack.take_back(taken);
            Err(refusal)
        }
    }
}

/// A method with code is called by no frame, as an initialiser, `main` or `run`: its frame, with these arguments,
/// stands over whatever is on the stack. All else is as for `call`.
///
/// # Errors
///
/// At the limits of fat locks and of the entries of an owner, or where there is no memory. Nothing has changed then.
pub fn first_call(
    shared: &mut Shared,
    stack: &mut ThreadStack,
    thread: u16,
    callee: Callee,
    arguments: &[u32],
    frames: usize,
) -> Result<Effect, EventRefusal>
    requires there { IsThere callee.entered shared.old.heap }
    requires numbered { thread < most_threads }
    ensures { DoesFirstCall result thread callee arguments.now frames shared.old shared.new stack.old stack.new }
{
    if stack.frame_count() >= frames {
        return Ok(Effect::Raises(MachineException::StackOverflow));
    }
    if !may_begin(&shared.heap, thread, callee.entered) {
        return Ok(Effect::NotEnabled);
    }
    stack.first_call(callee, arguments)?;
    match enter_for(shared, thread, callee.entered) {
        Ok(()) => Ok(Effect::Done),
        Err(refusal) => {
            stack.drop_top();
            Err(refusal)
        }
    }
}
