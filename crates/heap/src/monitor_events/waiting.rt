//! Wait sets (JLS 17.2).

ghost use Rattle.std.specs.Prelude.{◌≡◌, ◌<◌, length};
ghost use Rattle.model.specs.BuiltInNumbers.{most_threads};
ghost use Rattle.model.specs.BuiltInMethods.{notified};
ghost use Rattle.heap.specs.monitor.Locks.{IsAllowed};
ghost use Rattle.heap.specs.monitor_events.Events.{SaysOwner, OwnerMakes, WaitsBy, Relocks};

use crate::Heap;
use crate::java_threads::{ThreadStatus, Threads, WakeCause};
use crate::monitor::{Call, MonitorRefusal};
use crate::monitor_events::entry::{is_done, is_owner};
use crate::monitor_events::waking::wake;

/// The owner of the monitor of an object joins its wait set with the count of its entries, and nobody owns the monitor
/// (JLS 17.2.1). It says whether the thread is the owner; nothing changes where it isn't.
///
/// # Errors
///
/// Where the lock would become one of too many fat locks, or there is no memory. Nothing has changed then.
pub fn wait(
    heap: &mut Heap,
    threads: &mut Threads,
    object: u32,
    thread: u16,
) -> Result<bool, MonitorRefusal>
    requires there { object < length heap.old.locks.monitors }
    requires numbered { thread < most_threads }
    ensures { WaitsBy result object thread heap.old heap.new threads.old threads.new }
{
    if !is_owner(heap, object, thread) {
        return Ok(false);
    }
    let count = heap.entries(object);
    heap.wait(object, thread)?;
    threads.set_status(thread, ThreadStatus::Waiting { object, count });
    Ok(true)
}

/// The member of this number, in joining order from 0, leaves the wait set of an object, if there is one and the
/// thread is the owner of the monitor (JLS 17.2.2). It says whether the thread is the owner; nothing changes where it
/// isn't.
pub fn notify(heap: &mut Heap, threads: &mut Threads, object: u32, thread: u16, pick: u16) -> bool
    requires { object < length heap.old.locks.monitors }
    ensures owner { SaysOwner result object thread heap.old }
    ensures after { OwnerMakes result (λ world.
        notified world thread object pick) heap.old heap.new threads.old threads.new }
{
    let owner = is_owner(heap, object, thread);
    if owner {
        let member = heap.waiter(object, usize::from(pick));
        heap.notify(object, thread, pick);
        if let Some(waiter) = member {
            wake(threads, object, waiter, WakeCause::Notified);
        }
    }
    owner
}

/// A thread that has left a wait set enters the monitor again as often as it had entered it, and runs (JLS 17.2.1),
/// where no thread owns the monitor. It says whether that is so; nothing changes where it isn't.
///
/// The call is allowed for each thread to which a status gives that object and count is `relocks_may_be_called` of
/// `limits_at_words`.
pub fn relock(heap: &mut Heap, threads: &mut Threads, object: u32, thread: u16, count: u32) -> bool
    requires { IsAllowed (Call.Relock object thread count) heap.old.locks }
    ensures { Relocks result object thread count heap.old heap.new threads.old threads.new }
{
    let relocked = is_done(heap.relock(object, thread, count));
    if relocked {
        threads.set_status(thread, ThreadStatus::Running);
    }
    relocked
}
