//! The events of a thread of which nothing is chosen: with another pick than 0 they are not enabled.

ghost use Rattle.std.specs.Prelude.{◌≡◌, ◌<◌, Some};
ghost use Rattle.model.specs.BuiltInNumbers.{most_threads};
ghost use Rattle.model.specs.State.{Relock, Running};
ghost use Rattle.heap.specs.java_threads.Statuses.{cause_of};
ghost use Rattle.heap.specs.java_threads.Table.{thread_at as row_at};
ghost use Rattle.machine_threads.specs.thread_begins.Runs.{CanBegin};
ghost use Rattle.machine_threads.specs.thread_events.Events.{HasThread};
ghost use Rattle.machine_threads.specs.thread_events.Unpicked.{DoesRelock, DoesPending, DoesInitialisation, DoesBegin};

use crate::pending_exceptions::pending_event;
use crate::thread_begins::begin_thread;
use crate::thread_wakes::relock_event;
use heap::java_threads::WakeCause;
use linked_code::LinkedProgram;
use machine_state::class_initialisation::initialise;
use machine_state::{Answer, EventRefusal, Shared};
use thread_stacks::{Phase, ThreadStack};

/// The event of a thread that has left the wait set of an object (JLS 17.2.1).
pub(crate) fn relock(
    shared: &mut Shared,
    stack: &mut ThreadStack,
    program: &LinkedProgram,
    thread: u16,
    pick: u16,
    object: u32,
    count: u32,
    cause: WakeCause,
) -> Result<Answer, EventRefusal>
    requires able { HasThread program.now thread shared.old stack.old }
    requires left { (row_at shared.old.threads.threads thread).status ≡ Relock object count (cause_of cause) }
    requires numbered { thread < most_threads }
    ensures { DoesRelock program.now result (record { thread = thread; pick = pick }) object count
        (cause_of cause) shared.old shared.new
        stack.old stack.new }
{
    if pick != 0 {
        return Ok(Answer::NotEnabled);
    }
    relock_event(shared, stack, program, thread, object, count, cause)
}

/// The event of a thread in which an exception is pending (JVMS 2.10).
pub(crate) fn pending(
    shared: &mut Shared,
    stack: &mut ThreadStack,
    program: &LinkedProgram,
    thread: u16,
    pick: u16,
    exception: u32,
) -> Result<Answer, EventRefusal>
    requires runs { (row_at shared.old.threads.threads thread).status ≡ Running }
    requires pending { (row_at shared.old.threads.threads thread).pending ≡ Some exception }
    ensures { DoesPending program.now result
        (record { thread = thread; pick = pick }) exception shared.old shared.new stack.old stack.new }
{
    if pick != 0 {
        return Ok(Answer::NotEnabled);
    }
    pending_event(shared, stack, program, thread, exception)
}

/// The event of a thread with a class on top, by its number and its phase (JVMS 5.5).
pub(crate) fn initialisation(
    shared: &mut Shared,
    stack: &mut ThreadStack,
    program: &LinkedProgram,
    thread: u16,
    pick: u16,
    class: u16,
    phase: Phase,
    frames: usize,
) -> Result<Answer, EventRefusal>
    requires numbered { thread < most_threads }
    ensures { DoesInitialisation program.now result
        (record { thread = thread; pick = pick }) class phase frames shared.old shared.new
        stack.old stack.new }
{
    if pick != 0 {
        return Ok(Answer::NotEnabled);
    }
    initialise(shared, stack, program, thread, class, phase, frames)
}

/// The event of a thread with an empty stack: it begins (JVMS 5.2; JLS 17).
pub(crate) fn begin(
    shared: &mut Shared,
    stack: &mut ThreadStack,
    program: &LinkedProgram,
    thread: u16,
    pick: u16,
    frames: usize,
) -> Result<Answer, EventRefusal>
    requires able { CanBegin program.now thread shared.old stack.old }
    requires numbered { thread < most_threads }
    ensures { DoesBegin program.now result
        (record { thread = thread; pick = pick }) frames shared.old shared.new stack.old stack.new }
{
    if pick != 0 {
        return Ok(Answer::NotEnabled);
    }
    begin_thread(shared, stack, program, thread, frames)
}
