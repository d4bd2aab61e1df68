//! Entries of monitors and their ends.

ghost use Rattle.std.specs.Prelude.{◌≡◌, ◌<◌, length};
ghost use Rattle.model.specs.BuiltInNumbers.{most_threads};
ghost use Rattle.model.specs.Worlds.{is_done as is_answer_done, with_exit};
ghost use Rattle.heap.specs.monitor_events.Tables.{MonitorsBecome};
ghost use Rattle.heap.specs.monitor_events.Events.{SaysMayEnter, SaysOwner, Enters};

use crate::Heap;
use crate::monitor::MonitorRefusal;
use model::MonitorAnswer;

/// Whether a call was done.
pub fn is_done(answer: MonitorAnswer) -> bool
    ensures { result ≡ is_answer_done answer }
{
    match answer {
        MonitorAnswer::Done => true,
        MonitorAnswer::Held | MonitorAnswer::NotOwner => false,
    }
}

/// Whether no other thread owns the monitor of an object (JLS 17.1).
pub fn may_enter(heap: &Heap, object: u32, thread: u16) -> bool
    requires { object < length heap.now.locks.monitors }
    ensures { SaysMayEnter result object thread heap.now }
{
    match heap.owner(object) {
        Some(owner) => owner == thread,
        None => true,
    }
}

/// Whether the thread owns the monitor of an object.
pub fn is_owner(heap: &Heap, object: u32, thread: u16) -> bool
    requires { object < length heap.now.locks.monitors }
    ensures { SaysOwner result object thread heap.now }
{
    match heap.owner(object) {
        Some(owner) => owner == thread,
        None => false,
    }
}

/// The thread enters the monitor of an object once (JLS 17.1), and says whether it did: it doesn't where another thread
/// owns it.
///
/// # Errors
///
/// Where the lock would become one of too many fat locks, the owner has entered 4,294,967,295 times, or there is no
/// memory. Nothing has changed then.
pub fn enter(heap: &mut Heap, object: u32, thread: u16) -> Result<bool, MonitorRefusal>
    requires there { object < length heap.old.locks.monitors }
    requires numbered { thread < most_threads }
    ensures { Enters result object thread heap.old heap.new }
{
    let answer = heap.enter(object, thread)?;
    Ok(is_done(answer))
}

/// The thread leaves the monitor of an object once, and says whether it is the owner; nothing changes where it isn't.
pub fn exit(heap: &mut Heap, object: u32, thread: u16) -> bool
    requires { object < length heap.old.locks.monitors }
    ensures owner { SaysOwner result object thread heap.old }
    ensures after { MonitorsBecome (λ world. with_exit world thread object) heap.old.locks.fat heap.old heap.new }
{
    let owner = is_owner(heap, object, thread);
    heap.exit(object, thread);
    owner
}
