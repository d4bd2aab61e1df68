//! The end of a thread belongs to the event that empties its stack.

ghost use Rattle.std.specs.Prelude.{◌≡◌, ◌<◌, ◌≤◌, length, IsTrue};
ghost use Rattle.model.specs.Worlds.{thread_at, with_thread};
ghost use Rattle.model.specs.Step.{ended, is_over as is_thread_over};
ghost use Rattle.heap.specs.java_threads.Table.{thread_at as row_at};
ghost use Rattle.heap.specs.monitor_events.Tables.{ThreadsBecome};
ghost use Rattle.machine_threads.specs.thread_wakes.Ends.{Ends, Settles};

use heap::java_threads::{ThreadStatus, Threads};
use heap::monitor_events::end;
use machine_state::Shared;
use thread_stacks::ThreadStack;

/// Whether a thread whose stack is empty has ended: it has begun, or an exception is pending.
fn is_over(threads: &Threads, thread: u16) -> bool
    ensures says { result ≡ is_thread_over (row_at threads.now.threads thread) }
    ensures there { IsTrue result → thread < length threads.now.threads }
{
    threads.begun(thread) || threads.pending(thread).is_some()
}

/// A thread has ended, with the exception that was pending in it or without one.
fn set_ended(threads: &mut Threads, thread: u16)
    requires { thread < length threads.old.threads }
    ensures { ThreadsBecome (λ world.
        with_thread world thread (ended (thread_at world thread))) threads.old threads.new }
{
    let pending = threads.pending(thread);
    threads.set_pending(thread, None);
    threads.set_status(thread, ThreadStatus::Ended(pending));
}

/// The end of a thread wakes all that wait on its Thread object; where there is no such object, none waits.
fn end_and_wake(shared: &mut Shared, thread: u16)
    requires { thread < length shared.old.threads.threads }
    ensures { Ends thread shared.old shared.new }
{
    if shared.threads.object(thread) < shared.heap.len() {
        end(&mut shared.heap, &mut shared.threads, thread);
    } else {
        set_ended(&mut shared.threads, thread);
    }
}

/// After an event of a thread: where its stack is empty, and it has begun or an exception is pending, the thread has
/// ended, by that exception or without one. All that wait on its Thread object are woken then. It takes no memory.
pub fn settle(shared: &mut Shared, stack: &ThreadStack, thread: u16)
    ensures { Settles thread shared.old shared.new stack.now }
{
    if stack.is_empty() && is_over(&shared.threads, thread) {
        end_and_wake(shared, thread);
    }
}
