//! What a new frame needs.

ghost use Rattle.waiting_circles.specs.Needs.{NeedsInFrame, NeedsInCall};

use crate::needs::kinds::Need;
use linked_code::{LinkedProgram, MethodBody};
use machine_instructions::called_methods::entered;
use machine_state::method_selection::{method_at, methods_are_run};
use thread_stacks::ThreadStack;

/// What a new frame needs over a stack, by the object whose monitor it enters. Where the stack has as many frames as
/// it may have, a StackOverflowError is raised instead (JVMS 2.5.2).
pub(crate) fn frame_need(stack: &ThreadStack, entered: Option<u32>, frames: usize) -> Option<Need>
    ensures { NeedsInFrame stack.now entered frames result }
{
    if stack.frame_count() >= frames {
        return None;
    }
    match entered {
        Some(object) => Some(Need::Monitor(object)),
        None => None,
    }
}

/// What the call of the method of a number needs, which enters the monitor of the object where it is synchronized (JVMS
/// 2.11.10): a method with code alone gets a frame.
pub(crate) fn call_need(
    stack: &ThreadStack,
    program: &LinkedProgram,
    method: u32,
    object: u32,
    frames: usize,
) -> Option<Need>
    ensures { NeedsInCall program.now method object frames stack.now result }
{
    methods_are_run();
    let Some(row) = method_at(program, method) else {
        return None;
    };
    match &row.body {
        MethodBody::Abstract => None,
        MethodBody::BuiltIn(_) => None,
        MethodBody::Code(_) => {
            let entered = entered(row.is_synchronized, object);
            frame_need(stack, entered, frames)
        }
    }
}
