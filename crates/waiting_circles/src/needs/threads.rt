//! What a thread needs, by what it is about and what is on top of its stack.

ghost use Rattle.std.specs.Prelude.{◌≡◌, option_map, slice_get, None};
ghost use Rattle.model.specs.State.{Running};
ghost use Rattle.heap.specs.java_threads.Table.{thread_at as row_at};
ghost use Rattle.waiting_circles.specs.Needs.{NeedsGoing, NeedsRunning, NeedsThere, NeedsNext};

use crate::needs::begins::{begin_need, initialisation_need};
use crate::needs::instructions::frame_on_top_need;
use crate::needs::kinds::Need;
use heap::java_threads::ThreadStatus;
use linked_code::LinkedProgram;
use machine_state::Shared;
use thread_stacks::{ThreadStack, Top};

/// What a thread needs in which no exception is pending, by what is on top of its stack.
fn going_need(
    shared: &Shared,
    stack: &ThreadStack,
    program: &LinkedProgram,
    thread: u16,
    frames: usize,
) -> Option<Need>
    requires runs { (row_at shared.now.threads.threads thread).status ≡ Running }
    requires goes_on { (row_at shared.now.threads.threads thread).pending ≡ None }
    ensures { NeedsGoing program.now shared.now stack.now thread frames result }
{
    match stack.top() {
        Top::Empty => begin_need(shared, program, thread, frames),
        Top::Invocation => frame_on_top_need(shared, stack, program, thread, frames),
        Top::Initialisation { class, phase } => {
            initialisation_need(shared, program, thread, class, phase)
        }
    }
}

/// What a thread needs that runs: nothing where an exception is pending (JVMS 2.10).
fn running_need(
    shared: &Shared,
    stack: &ThreadStack,
    program: &LinkedProgram,
    thread: u16,
    frames: usize,
) -> Option<Need>
    requires { (row_at shared.now.threads.threads thread).status ≡ Running }
    ensures { NeedsRunning program.now shared.now stack.now thread frames result }
{
    match shared.threads.pending(thread) {
        Some(_) => None,
        None => going_need(shared, stack, program, thread, frames),
    }
}

/// What a thread needs, by what it is about: one that has left the wait set of an object, its monitor (JLS 17.2.1).
fn thread_need(
    shared: &Shared,
    stack: &ThreadStack,
    program: &LinkedProgram,
    thread: u16,
    frames: usize,
) -> Option<Need>
    ensures { NeedsThere program.now shared.now stack.now thread frames result }
{
    match shared.threads.status(thread) {
        ThreadStatus::Running => running_need(shared, stack, program, thread, frames),
        ThreadStatus::Waiting { .. } => None,
        ThreadStatus::Relock { object, .. } => Some(Need::Monitor(object)),
        ThreadStatus::Ended(_) => None,
    }
}

/// The stack of a thread, if there is such a thread.
fn stack_of(shared: &Shared, thread: u16) -> Option<&ThreadStack>
    ensures { option_map (λ s. s.now) result ≡ slice_get shared.now.stacks.items thread }
{
    shared.stacks.get(usize::from(thread))
}

/// What the next event of a thread needs, where a stack has at most so many frames. One that is not there needs
/// nothing.
pub fn next_need(
    shared: &Shared,
    program: &LinkedProgram,
    thread: u16,
    frames: usize,
) -> Option<Need>
    ensures { NeedsNext program.now shared.now thread frames result }
{
    match stack_of(shared, thread) {
        Some(stack) => thread_need(shared, stack, program, thread, frames),
        None => None,
    }
}
