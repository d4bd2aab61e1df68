//! The first event of a thread.

ghost use Rattle.std.specs.Prelude.{◌<◌};
ghost use Rattle.model.specs.BuiltInNumbers.{most_threads};
ghost use Rattle.machine_threads.specs.thread_begins.Runs.{CanBegin};
ghost use Rattle.machine_threads.specs.thread_begins.Threads.{BeginsStarted, BeginsThread};

use crate::thread_begins::initial::begin_main;
use crate::thread_begins::runs::begin_run;
use linked_code::LinkedProgram;
use machine_state::raised_exceptions::apply;
use machine_state::{Answer, EventRefusal, Shared};
use thread_stacks::ThreadStack;

/// A thread that was started calls `run` of its Thread object, and what it raises is pending then.
fn begin_started(
    shared: &mut Shared,
    stack: &mut ThreadStack,
    program: &LinkedProgram,
    thread: u16,
    frames: usize,
) -> Result<Answer, EventRefusal>
    requires able { CanBegin program.now thread shared.old stack.old }
    requires numbered { thread < most_threads }
    ensures { BeginsStarted program.now result thread frames shared.old shared.new stack.old stack.new }
{
    match begin_run(shared, stack, program, thread, frames) {
        Ok(effect) => apply(shared, program, thread, effect),
        Err(refusal) => Err(refusal),
    }
}

/// A thread that has not begun, with an empty stack, calls the method that it runs: the main thread `main` of the
/// initial class (JVMS 5.2), any other `run` of its Thread object (JLS 17). Where the method isn't called, the thread
/// has not begun: the initial class is initialised first, the event isn't enabled, or an exception is pending.
///
/// # Errors
///
/// At the limits of fat locks and of the entries of an owner, where an exception can't be made, or where there is no
/// memory. Nothing has changed then.
pub fn begin_thread(
    shared: &mut Shared,
    stack: &mut ThreadStack,
    program: &LinkedProgram,
    thread: u16,
    frames: usize,
) -> Result<Answer, EventRefusal>
    requires able { CanBegin program.now thread shared.old stack.old }
    requires numbered { thread < most_threads }
    ensures { BeginsThread program.now result thread frames shared.old shared.new stack.old stack.new }
{
    if thread == 0 {
        begin_main(shared, stack, program, frames)
    } else {
        begin_started(shared, stack, program, thread, frames)
    }
}
