//! The monitor that an invocation entered.

ghost use Rattle.std.specs.Prelude.{◌≡◌, ◌<◌, ℕ, Some, length, IsTrue};
ghost use Rattle.machine_instructions.specs.returns.Leaving.{HasEntered, SaysMayLeave, Leaves};

use heap::Heap;
use heap::monitor_events::{exit, is_owner};
use machine_state::Shared;
use thread_stacks::ThreadStack;

/// The object whose monitor the frame on top entered.
#[inline]
pub(crate) fn entered_by_top(stack: &ThreadStack) -> Option<u32>
    ensures { HasEntered stack.now result }
{
    match stack.frame() {
        Some(frame) => frame.entered,
        None => None,
    }
}

/// Whether the thread owns the monitor that an invocation entered, if it entered one.
#[inline]
pub(crate) fn may_leave(heap: &Heap, thread: u16, entered: Option<u32>) -> bool
    ensures says { SaysMayLeave result thread entered heap.now }
    ensures there { (object : ℕ) → entered ≡ Some object → IsTrue result → object < length heap.now.locks.monitors }
{
    match entered {
        None => true,
        Some(object) => object < heap.len() && is_owner(heap, object, thread),
    }
}

/// The thread leaves the monitor that an invocation entered, if it entered one, once.
#[inline]
pub(crate) fn leave(shared: &mut Shared, thread: u16, entered: Option<u32>)
    requires { (object : ℕ) → entered ≡ Some object → object < length shared.old.heap.locks.monitors }
    ensures { Leaves thread entered shared.old shared.new }
{
    if let Some(object) = entered {
        exit(&mut shared.heap, object, thread);
    }
}
