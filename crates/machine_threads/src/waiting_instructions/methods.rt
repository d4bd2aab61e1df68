//! For what a call waits, once it is known which method it runs.

ghost use Rattle.machine_state.specs.invocations.Entering.{IsThere, SaysMayBegin};
ghost use Rattle.machine_threads.specs.waiting_instructions.Held.{StandsInJoin, StandsInBuiltIn, StandsInCode, StandsInCall};

use crate::waiting_instructions::frames::object_on_top;
use crate::waiting_instructions::kinds::Standing;
use crate::waiting_instructions::monitors::may_enter_there;
use heap::Heap;
use heap::monitor_events::is_alive;
use linked_code::{BuiltInMethod, LinkedProgram, MethodBody};
use machine_instructions::called_methods::entered;
use machine_state::Shared;
use machine_state::method_selection::{method_at, methods_are_run};
use thread_stacks::ThreadStack;

/// `Thread.join` waits while the target is alive, unless the thread itself is interrupted (JLS 17.2.3).
fn join_standing(shared: &Shared, stack: &ThreadStack, thread: u16) -> Standing
    ensures { StandsInJoin thread result shared.now stack.now }
{
    if is_alive(&shared.threads, object_on_top(stack)) {
        if shared.threads.interrupted(thread) {
            return Standing::Runnable;
        }
        return Standing::Joining;
    }
    Standing::Runnable
}

/// A built-in method never waits at its call, but for `Thread.join`.
fn built_in_standing(
    shared: &Shared,
    stack: &ThreadStack,
    thread: u16,
    method: BuiltInMethod,
) -> Standing
    ensures { StandsInBuiltIn method thread result shared.now stack.now }
{
    match method {
        BuiltInMethod::ThreadJoin => join_standing(shared, stack, thread),
        _ => Standing::Runnable,
    }
}

/// Whether no other thread owns the monitor that an invocation enters, if it enters one of an object that is there.
fn may_begin(heap: &Heap, thread: u16, entered: Option<u32>) -> bool
    ensures { IsThere entered heap.now → SaysMayBegin result thread entered heap.now }
{
    match entered {
        Some(object) => may_enter_there(heap, object, thread),
        None => true,
    }
}

/// The call of a method with code waits while another thread owns the monitor that it enters. Where a thread has as
/// many frames as it may have, the call is a StackOverflowError (JVMS 2.5.2), which does not wait.
fn code_standing(
    shared: &Shared,
    stack: &ThreadStack,
    thread: u16,
    entered: Option<u32>,
    frames: usize,
) -> Standing
    ensures { StandsInCode entered frames thread result shared.now stack.now }
{
    if stack.frame_count() >= frames {
        return Standing::Runnable;
    }
    if may_begin(&shared.heap, thread, entered) {
        return Standing::Runnable;
    }
    Standing::Blocked
}

/// How a thread stands at the call of the method of a number, which enters the monitor of the object where it is
/// synchronized.
pub(crate) fn call_standing(
    shared: &Shared,
    stack: &ThreadStack,
    program: &LinkedProgram,
    thread: u16,
    method: u32,
    object: u32,
    frames: usize,
) -> Standing
    ensures { StandsInCall program.now method object frames thread result shared.now stack.now }
{
    methods_are_run();
    let Some(row) = method_at(program, method) else {
        return Standing::Runnable;
    };
    match &row.body {
        MethodBody::Abstract => Standing::Runnable,
        MethodBody::BuiltIn(built_in) => built_in_standing(shared, stack, thread, *built_in),
        MethodBody::Code(_) => {
            let entered = entered(row.is_synchronized, object);
            code_standing(shared, stack, thread, entered, frames)
        }
    }
}
