//! The end of a thread, after its event.

ghost use Rattle.machine_threads.specs.thread_events.Settling.{SettlesEvent};

use crate::thread_wakes::settle;
use machine_state::{Answer, EventRefusal, Shared};
use thread_stacks::ThreadStack;

/// What an event of a thread came to, with the end of the thread that may belong to it: where the event is done, the
/// stack is empty, and the thread has begun or an exception is pending, it has ended, and all that wait on its Thread
/// object are woken.
///
/// # Errors
///
/// Where the event was refused. Nothing changes then, nor where it is not enabled.
pub(crate) fn settle_event(
    shared: &mut Shared,
    stack: &ThreadStack,
    thread: u16,
    given: Result<Answer, EventRefusal>,
) -> Result<Answer, EventRefusal>
    ensures { SettlesEvent thread given result shared.old shared.new stack.now }
{
    match given {
        Ok(Answer::Done) => {
            settle(shared, stack, thread);
            Ok(Answer::Done)
        }
        Ok(Answer::NotEnabled) => Ok(Answer::NotEnabled),
        Err(refusal) => Err(refusal),
    }
}
