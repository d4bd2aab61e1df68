//! The end of threads.

ghost use Rattle.std.specs.Prelude.{◌≡◌, ◌<◌, length, true};
ghost use Rattle.model.specs.Worlds.{thread_at, with_thread};
ghost use Rattle.model.specs.Step.{ended, with_end};
ghost use Rattle.heap.specs.monitor_events.Tables.{ThreadsBecome, BothBecome};
ghost use Rattle.heap.specs.java_threads.Table.{thread_at as row_at};

use crate::Heap;
use crate::java_threads::{ThreadStatus, Threads, WakeCause};
use crate::monitor_events::waking::wake_members;

/// A thread has ended, with the exception that was pending in it or without one.
fn set_ended(threads: &mut Threads, thread: u16)
    requires { thread < length threads.old.threads }
    ensures { ThreadsBecome (λ world.
        with_thread world thread (ended (thread_at world thread))) threads.old threads.new }
{
    let pending = threads.pending(thread);
    threads.set_pending(thread, None);
    threads.set_status(thread, ThreadStatus::Ended(pending));
}

/// The end of a thread, by an exception that is pending or without: all that wait on its Thread object are woken, and
/// what it owns stays owned. A thread that joins it may go on from here, since it isn't alive any more. It takes no
/// memory.
///
/// The Thread object is there, which follows from the table of threads of a well-typed state (`references_have_room` of
/// `limits_at_words`).
pub fn end(heap: &mut Heap, threads: &mut Threads, thread: u16)
    requires there { thread < length threads.old.threads }
    requires object { (row_at threads.old.threads thread).object < length heap.old.locks.monitors }
    ensures { BothBecome (λ world.
        with_end world thread true) heap.old.locks.fat heap.old heap.new threads.old threads.new }
{
    let object = threads.object(thread);
    set_ended(threads, thread);
    wake_members(heap, threads, object, WakeCause::Notified);
    heap.wake_all(object);
}
