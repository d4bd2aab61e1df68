//! How a thread stands, and whether it has an event that is enabled.

ghost use Rattle.std.specs.Prelude.{◌≡◌, option_map, slice_get};
ghost use Rattle.machine.specs.thread_standings.Standings.{StandsSo, MaySo};
ghost use Rattle.machine.specs.thread_standings.Parts.{StandsEnded, StandsRelock, StandsThere, is_runnable_standing};

use crate::thread_standings::monitors::is_free;
use crate::thread_standings::running::running_standing;
use heap::Heap;
use heap::java_threads::ThreadStatus;
use linked_code::LinkedProgram;
use machine_state::Shared;
use machine_state::method_selection::class_of_kind;
use machine_threads::waiting_instructions::Standing;
use thread_stacks::ThreadStack;

/// How a thread stands that has ended, with an exception or without one (JVMS 2.10).
fn ended_standing(heap: &Heap, exception: Option<u32>) -> Standing
    ensures { StandsEnded heap.now.objects exception result }
{
    match exception {
        None => Standing::Ended,
        Some(object) => match heap.class_of(object) {
            Some(kind) => Standing::Threw(class_of_kind(kind)),
            None => Standing::Ended,
        },
    }
}

/// How a thread stands that has left the wait set of an object (JLS 17.2.1).
fn relock_standing(heap: &Heap, object: u32) -> Standing
    ensures { StandsRelock heap.now.locks.monitors object result }
{
    if is_free(heap, object) {
        Standing::Runnable
    } else {
        Standing::Blocked
    }
}

/// How a thread stands, by what it is about.
fn thread_standing(
    shared: &Shared,
    stack: &ThreadStack,
    program: &LinkedProgram,
    thread: u16,
    frames: usize,
) -> Standing
    ensures { StandsThere program.now shared.now stack.now thread frames result }
{
    match shared.threads.status(thread) {
        ThreadStatus::Running => running_standing(shared, stack, program, thread, frames),
        ThreadStatus::Waiting { .. } => Standing::Waiting,
        ThreadStatus::Relock { object, .. } => relock_standing(&shared.heap, object),
        ThreadStatus::Ended(exception) => ended_standing(&shared.heap, exception),
    }
}

/// The stack of a thread, if there is such a thread.
fn stack_of(shared: &Shared, thread: u16) -> Option<&ThreadStack>
    ensures { option_map (λ s. s.now) result ≡ slice_get shared.now.stacks.items thread }
{
    shared.stacks.get(usize::from(thread))
}

/// How a thread stands, where a stack has at most so many frames. One that is not there counts as ended.
pub fn standing_of(shared: &Shared, program: &LinkedProgram, thread: u16, frames: usize) -> Standing
    ensures { StandsSo program.now shared.now thread frames result }
{
    match stack_of(shared, thread) {
        Some(stack) => thread_standing(shared, stack, program, thread, frames),
        None => Standing::Ended,
    }
}

/// Whether it has an event that is enabled.
fn is_runnable(standing: Standing) -> bool
    ensures { result ≡ is_runnable_standing standing }
{
    matches!(standing, Standing::Runnable)
}

/// Whether a thread has an event that is enabled, where a stack has at most so many frames. One that is not there has
/// none.
pub fn may_step(shared: &Shared, program: &LinkedProgram, thread: u16, frames: usize) -> bool
    ensures { MaySo program.now shared.now thread frames result }
{
    match stack_of(shared, thread) {
        Some(_) => is_runnable(standing_of(shared, program, thread, frames)),
        None => false,
    }
}
