//! How a thread stands that runs.

ghost use Rattle.std.specs.Prelude.{◌≡◌, None};
ghost use Rattle.model.specs.State.{Running};
ghost use Rattle.heap.specs.java_threads.Table.{thread_at as row_at};
ghost use Rattle.machine.specs.thread_standings.Parts.{StandsPending, StandsAtFrame, StandsGoing, StandsRunning};

use crate::thread_standings::begins::{begin_standing, empty_standing};
use crate::thread_standings::classes::initialisation_standing;
use linked_code::LinkedProgram;
use machine_state::Shared;
use machine_state::linked_frames::frames_stand;
use machine_threads::waiting_instructions::{Standing, instruction_standing};
use thread_stacks::{ThreadStack, Top};

/// How a thread stands in which an exception is pending (JVMS 2.10): whatever is on top of its stack, it has an event
/// that is enabled.
fn pending_standing(
    shared: &Shared,
    stack: &ThreadStack,
    program: &LinkedProgram,
    thread: u16,
) -> Standing
    ensures { StandsPending program.now shared.now stack.now thread result }
{
    if stack.is_empty() {
        empty_standing(shared, program, thread)
    } else {
        Standing::Runnable
    }
}

/// How a thread stands with a frame on top.
fn frame_standing(
    shared: &Shared,
    stack: &ThreadStack,
    program: &LinkedProgram,
    thread: u16,
    frames: usize,
) -> Standing
    ensures { StandsAtFrame program.now shared.now stack.now thread frames result }
{
    frames_stand();
    instruction_standing(shared, stack, program, thread, frames)
}

/// How a thread stands in which no exception is pending, by what is on top of its stack.
fn going_standing(
    shared: &Shared,
    stack: &ThreadStack,
    program: &LinkedProgram,
    thread: u16,
    frames: usize,
) -> Standing
    requires runs { (row_at shared.now.threads.threads thread).status ≡ Running }
    requires goes_on { (row_at shared.now.threads.threads thread).pending ≡ None }
    ensures { StandsGoing program.now shared.now stack.now thread frames result }
{
    match stack.top() {
        Top::Empty => begin_standing(shared, program, thread, frames),
        Top::Invocation => frame_standing(shared, stack, program, thread, frames),
        Top::Initialisation { class, phase } => {
            initialisation_standing(shared, program, thread, class, phase)
        }
    }
}

/// How a thread stands that runs: an exception that is pending comes first (JVMS 2.10).
pub(crate) fn running_standing(
    shared: &Shared,
    stack: &ThreadStack,
    program: &LinkedProgram,
    thread: u16,
    frames: usize,
) -> Standing
    requires { (row_at shared.now.threads.threads thread).status ≡ Running }
    ensures { StandsRunning program.now shared.now stack.now thread frames result }
{
    match shared.threads.pending(thread) {
        Some(_) => pending_standing(shared, stack, program, thread),
        None => going_standing(shared, stack, program, thread, frames),
    }
}
