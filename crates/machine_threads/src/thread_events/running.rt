//! The event of a thread that runs, with no exception pending.

ghost use Rattle.std.specs.Prelude.{◌≡◌, ◌<◌, None};
ghost use Rattle.model.specs.BuiltInNumbers.{most_threads};
ghost use Rattle.model.specs.State.{Running};
ghost use Rattle.heap.specs.java_threads.Table.{thread_at as row_at};
ghost use Rattle.machine_threads.specs.thread_events.Events.{HasThread, DoesRunning};

use crate::instruction_events::instruction_event;
use crate::thread_events::unpicked::{begin, initialisation};
use linked_code::LinkedProgram;
use machine_state::{Answer, EventRefusal, Shared};
use thread_stacks::{ThreadStack, Top};

/// By what is on top of its stack: with a frame the event is that of its instruction (JVMS 2.6), with a class that
/// the thread initialises it is the next step of that (JVMS 5.5), and with an empty stack the thread begins (JVMS
/// 5.2; JLS 17).
pub(crate) fn running_event(
    shared: &mut Shared,
    stack: &mut ThreadStack,
    program: &LinkedProgram,
    thread: u16,
    pick: u16,
    frames: usize,
) -> Result<Answer, EventRefusal>
    requires able { HasThread program.now thread shared.old stack.old }
    requires runs { (row_at shared.old.threads.threads thread).status ≡ Running }
    requires goes_on { (row_at shared.old.threads.threads thread).pending ≡ None }
    requires numbered { thread < most_threads }
    ensures { DoesRunning program.now result
        (record { thread = thread; pick = pick }) frames shared.old shared.new stack.old stack.new }
{
    match stack.top() {
        Top::Empty => begin(shared, stack, program, thread, pick, frames),
        Top::Invocation => instruction_event(shared, stack, program, thread, pick, frames),
        Top::Initialisation { class, phase } => {
            initialisation(shared, stack, program, thread, pick, class, phase, frames)
        }
    }
}
