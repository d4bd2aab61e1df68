//! For what `monitorenter` waits, and whether a monitor may be entered.

ghost use Rattle.std.specs.Prelude.{◌<◌, length};
ghost use Rattle.heap.specs.monitor_events.Events.{SaysMayEnter};
ghost use Rattle.machine_threads.specs.waiting_instructions.Held.{SaysMayEnterTop};

use heap::Heap;
use heap::monitor_events::may_enter;
use machine_instructions::called_methods::receiver;
use machine_state::Shared;
use thread_stacks::ThreadStack;

/// Whether no other thread owns the monitor of an object that is there (JLS 17.1).
pub(crate) fn may_enter_there(heap: &Heap, object: u32, thread: u16) -> bool
    ensures { object < length heap.now.locks.monitors → SaysMayEnter result object thread heap.now }
{
    if object < heap.len() {
        may_enter(heap, object, thread)
    } else {
        true
    }
}

/// Whether no other thread owns the monitor of the object on top; null does not wait, it throws (JVMS 6.5
/// monitorenter).
pub(crate) fn may_enter_top(shared: &Shared, stack: &ThreadStack, thread: u16) -> bool
    ensures { SaysMayEnterTop thread result shared.now stack.now }
{
    match receiver(stack, 0) {
        Some(object) => may_enter_there(&shared.heap, object, thread),
        None => true,
    }
}
