//! Frames that an exception ends.

ghost use Rattle.machine_instructions.specs.returns.Unwound.{Unwinds};

use crate::returns::leaving::{entered_by_top, leave, may_leave};
use machine_state::raised_exceptions::raise;
use machine_state::{Answer, EventRefusal, MachineException, Shared};
use thread_stacks::ThreadStack;

/// The exception that is pending ends the frame on top (JVMS 2.10): it goes, and the monitor that the invocation
/// entered is left once. Where another thread or none owns that monitor, an IllegalMonitorStateException is pending
/// instead.
///
/// # Errors
///
/// Where that exception can't be made: as many objects as may be were made, or there is no memory. Nothing has
/// changed then.
pub fn unwind(
    shared: &mut Shared,
    stack: &mut ThreadStack,
    thread: u16,
) -> Result<Answer, EventRefusal>
    ensures { Unwinds result thread shared.old shared.new stack.old stack.new }
{
    let entered = entered_by_top(stack);
    if !may_leave(&shared.heap, thread, entered) {
        raise(shared, thread, MachineException::IllegalMonitorState, 0)?;
        stack.drop_top();
        return Ok(Answer::Done);
    }
    leave(shared, thread, entered);
    stack.drop_top();
    Ok(Answer::Done)
}
