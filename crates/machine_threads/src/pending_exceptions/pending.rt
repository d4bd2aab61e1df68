//! The event of a thread in which an exception is pending.

ghost use Rattle.machine_threads.specs.pending_exceptions.Pending.{DoesPending, DoesInFrame, DoesInClass};

use crate::pending_exceptions::catching::catch_in;
use crate::pending_exceptions::finding::handler_on_top;
use linked_code::LinkedProgram;
use machine_instructions::returns::unwind;
use machine_state::class_initialisation::fail;
use machine_state::exception_handlers::is_error;
use machine_state::{Answer, EventRefusal, Shared};
use thread_stacks::{ThreadStack, Top};

/// The event with a frame on top: the frame goes on at its handler, or ends (JVMS 2.10).
fn event_in_frame(
    shared: &mut Shared,
    stack: &mut ThreadStack,
    program: &LinkedProgram,
    thread: u16,
    exception: u32,
) -> Result<Answer, EventRefusal>
    ensures { DoesInFrame program.now thread exception result shared.old shared.new stack.old stack.new }
{
    match handler_on_top(program, &shared.heap, stack, exception) {
        Some(handler) => catch_in(shared, stack, thread, handler, exception),
        None => unwind(shared, stack, thread),
    }
}

/// The event with a class on top: its initialisation fails (JVMS 5.5, steps 11 and 12).
fn event_in_class(
    shared: &mut Shared,
    stack: &mut ThreadStack,
    program: &LinkedProgram,
    thread: u16,
    class: u16,
    exception: u32,
) -> Result<Answer, EventRefusal>
    ensures { DoesInClass program.now thread class exception result shared.old shared.new stack.old stack.new }
{
    let is_error = is_error(program, &shared.heap, exception);
    fail(shared, stack, thread, class, exception, is_error)
}

/// The event of a thread in which an exception is pending (JVMS 2.10): the frame on top goes on at the first of its
/// handlers that takes the exception, with the exception alone on its stack, or ends; a class on top, which the
/// thread initialises, is erroneous (JVMS 5.5). With an empty stack the event is not enabled.
///
/// # Errors
///
/// Where an exception that is to be pending instead can't be made, or there is no memory. Nothing has changed then.
pub fn pending_event(
    shared: &mut Shared,
    stack: &mut ThreadStack,
    program: &LinkedProgram,
    thread: u16,
    exception: u32,
) -> Result<Answer, EventRefusal>
    ensures { DoesPending program.now thread exception result shared.old shared.new stack.old stack.new }
{
    match stack.top() {
        Top::Empty => Ok(Answer::NotEnabled),
        Top::Invocation => event_in_frame(shared, stack, program, thread, exception),
        Top::Initialisation { class, .. } => {
            event_in_class(shared, stack, program, thread, class, exception)
        }
    }
}
