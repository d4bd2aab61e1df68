//! Who owns monitors (JLS 17.1).

ghost use Rattle.std.specs.Prelude.{◌≡◌, ℕ, Option};
ghost use Rattle.model.specs.Monitors.{monitor_at, enter as enters, relock as relocks};
ghost use Rattle.model.specs.Worlds.{is_done};
ghost use Rattle.machine.specs.thread_standings.Parts.{call_may_begin};

use heap::Heap;

/// The thread that owns the monitor of an object, if there is such an object.
fn owner_of(heap: &Heap, object: u32) -> Option<u16>
    ensures { result ≡ (monitor_at heap.now.locks.monitors object).owner }
{
    if object < heap.len() {
        heap.owner(object)
    } else {
        None
    }
}

/// Whether no other thread owns the monitor of an object.
fn may_enter(heap: &Heap, object: u32, thread: u16) -> bool
    ensures { result ≡ is_done (enters object thread heap.now.locks.monitors).answer }
{
    match owner_of(heap, object) {
        Some(owner) => owner == thread,
        None => true,
    }
}

/// Whether a thread that has left the wait set of an object may enter its monitor again: no thread owns it (JLS
/// 17.2.1).
pub(crate) fn is_free(heap: &Heap, object: u32) -> bool
    ensures { (thread count : ℕ) → result ≡ is_done (relocks object thread count heap.now.locks.monitors).answer }
{
    owner_of(heap, object).is_none()
}

/// Whether the first call of a thread is enabled, where it enters the monitor of an object or none: no frame may
/// stand on the stack, so that a StackOverflowError is raised (JVMS 2.5.2), or no other thread owns the monitor.
pub(crate) fn may_call(heap: &Heap, thread: u16, entered: Option<u32>, frames: usize) -> bool
    ensures { result ≡ call_may_begin heap.now.locks.monitors thread frames entered }
{
    if frames == 0 {
        return true;
    }
    match entered {
        None => true,
        Some(object) => may_enter(heap, object, thread),
    }
}
