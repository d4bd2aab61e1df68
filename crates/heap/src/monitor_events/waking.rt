//! Threads that leave wait sets.

ghost use Rattle.std.specs.Prelude.{◌≡◌, ◌<◌, length};
ghost use Rattle.model.specs.BuiltInMethods.{notified_all};
ghost use Rattle.heap.specs.java_threads.Statuses.{cause_of};
ghost use Rattle.heap.specs.monitor_events.Events.{SaysOwner, IsWoken, AreWoken, OwnerMakes};

use crate::Heap;
use crate::java_threads::{ThreadStatus, Threads, WakeCause};
use crate::monitor::Waiter;
use crate::monitor_events::entry::is_owner;

/// A thread that has left the wait set of an object is to enter its monitor again.
pub fn wake(threads: &mut Threads, object: u32, waiter: Waiter, cause: WakeCause)
    ensures { IsWoken object (cause_of cause) waiter threads.old threads.new }
{
    let count = waiter.count;
    threads.set_status(
        waiter.thread,
        ThreadStatus::Relock {
            object,
            count,
            cause,
        },
    );
}

/// All members of the wait set of an object are to enter its monitor again. They stay in the set.
pub fn wake_members(heap: &Heap, threads: &mut Threads, object: u32, cause: WakeCause)
    requires { object < length heap.now.locks.monitors }
    ensures { AreWoken object (cause_of cause) heap.now threads.old threads.new }
{
    for pick in 0..heap.waiter_count(object) {
        if let Some(waiter) = heap.waiter(object, pick) {
            wake(threads, object, waiter, cause);
        }
    }
}

/// All members leave the wait set of an object (JLS 17.2.2), if the thread is the owner of its monitor, and it says
/// whether it is. It takes no memory.
pub fn notify_all(heap: &mut Heap, threads: &mut Threads, object: u32, thread: u16) -> bool
    requires { object < length heap.old.locks.monitors }
    ensures owner { SaysOwner result object thread heap.old }
    ensures after { OwnerMakes result (λ world.
        notified_all world thread object) heap.old heap.new threads.old threads.new }
{
    let owner = is_owner(heap, object, thread);
    if owner {
        wake_members(heap, threads, object, WakeCause::Notified);
        heap.notify_all(object, thread);
    }
    owner
}
