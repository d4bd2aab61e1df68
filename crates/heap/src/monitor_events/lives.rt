//! The start of threads, and their interruption.

ghost use Rattle.std.specs.Prelude.{◌≡◌, ◌<◌, length};
ghost use Rattle.model.specs.Worlds.{with_interrupted, thread_at, has_ended};
ghost use Rattle.model.specs.BuiltInMethods.{interrupted_in};
ghost use Rattle.heap.specs.monitor_events.Tables.{ThreadsBecome, BothBecome, IsStatusWithin};
ghost use Rattle.heap.specs.monitor_events.Lives.{SaysStarted, SaysAlive, StartsBy};
ghost use Rattle.heap.specs.java_threads.Statuses.{status_of};
ghost use Rattle.heap.specs.java_threads.Table.{thread_at as row_at};

use crate::Heap;
use crate::java_threads::{ThreadRefusal, ThreadStatus, Threads, WakeCause};

/// Whether a thread of a Thread object was started.
pub fn is_started(threads: &Threads, object: u32) -> bool
    ensures { SaysStarted result object threads.now }
{
    threads.number(object).is_some()
}

/// Starts a thread of a Thread object, and says whether it did: a second one is never started, and nothing changes
/// then.
///
/// # Errors
///
/// Where as many threads have been started as may be, or there is no memory. Nothing has changed then.
pub fn start(threads: &mut Threads, object: u32) -> Result<bool, ThreadRefusal>
    ensures { StartsBy result object threads.old threads.new }
{
    if is_started(threads, object) {
        return Ok(false);
    }
    threads.add(object)?;
    Ok(true)
}

/// Sets or clears the interrupt status of a thread, as after the exception of an interrupted wait.
pub fn set_interrupted(threads: &mut Threads, thread: u16, interrupted: bool)
    ensures { ThreadsBecome (λ world. with_interrupted world thread interrupted) threads.old threads.new }
{
    threads.set_interrupted(thread, interrupted);
}

/// A thread is interrupted (JLS 17.2.3): one in a wait set leaves it, and is to enter the monitor again; nothing
/// becomes of one that has ended.
///
/// The object on which it waits is there, which follows from the status of each thread of a well-typed state
/// (`references_have_room` of `limits_at_words`).
pub fn interrupt(heap: &mut Heap, threads: &mut Threads, thread: u16)
    requires { IsStatusWithin (length heap.old.locks.monitors) (row_at threads.old.threads thread).status }
    ensures { BothBecome (λ world.
        interrupted_in world thread (thread_at world thread).status) heap.old.locks.fat heap.old heap.new
        threads.old threads.new }
{
    match threads.status(thread) {
        ThreadStatus::Running | ThreadStatus::Relock { .. } => {
            threads.set_interrupted(thread, true);
        }
        ThreadStatus::Waiting { object, count } => {
            heap.interrupt(object, thread);
            threads.set_interrupted(thread, true);
            let cause = WakeCause::Interrupted;
            threads.set_status(
                thread,
                ThreadStatus::Relock {
                    object,
                    count,
                    cause,
                },
            );
        }
        ThreadStatus::Ended(_) => {}
    }
}

/// Whether a status is that of a thread that has ended.
fn is_ended(status: ThreadStatus) -> bool
    ensures { result ≡ has_ended (status_of status) }
{
    match status {
        ThreadStatus::Running | ThreadStatus::Waiting { .. } | ThreadStatus::Relock { .. } => false,
        ThreadStatus::Ended(_) => true,
    }
}

/// Whether a thread of a Thread object was started and has not ended: until then one that joins it waits.
#[tactic(auto, using(crate::proofs::monitor_events::Alive::some_alive, crate::proofs::monitor_events::Alive::none_alive))]
pub fn is_alive(threads: &Threads, object: u32) -> bool
    ensures { SaysAlive result object threads.now }
{
    match threads.number(object) {
        Some(thread) => !is_ended(threads.status(thread)),
        None => false,
    }
}
