//! The one monitor that an event may have locked or unlocked (JLS 17.1; JVMS 2.11.10).
//!
//! # Proved
//!
//! - `monitor_changed`: by the monitor that an event may mean, told before it, and by the stack of its thread after it,
//!   which monitor the event may have locked or unlocked, and whether the thread owned that before (`ChangesMonitor`).
//!   What is told before may be any monitor where the definitions mean none. No other monitor's owner has changed; so
//!   `locked` and `unlocked` of `changes` tell the locks and unlocks of the definitions.
//!
//! # Not proved
//!
//! - That an event changes no other owner is a theorem of `owners`, what the count of a monitor tells one of
//!   `entered_monitors`, and that an invocation which enters a monitor means no other one of `meant_monitors`.
//!
//! # Wrong bodies
//!
//! - `changed_monitors-entered-once-is-owned`: who has entered a monitor once owned it before; refused by
//!   `is_entered_again`.

ghost use Rattle.std.specs.Prelude.{◌≡◌, Some};
ghost use Rattle.state_actions.specs.changed_monitors.Changed.{ChangesMonitor, entered_above, tells_owner};

use heap::Heap;
use thread_stacks::ThreadStack;

/// A monitor by its object, if one is meant, and whether a thread owned it before an event.
#[derive(Clone, Copy)]
pub struct MonitorBefore {
    pub object: Option<u32>,
    pub was_owner: bool,
}

/// The object whose monitor the invocation entered that is new on top of a stack, by how many entries that had before.
fn entered_since(stack: &ThreadStack, depth: usize) -> Option<u32>
    ensures { result ≡ entered_above depth stack.now }
{
    if stack.len() <= depth {
        return None;
    }
    match stack.frame() {
        Some(frame) => frame.entered,
        None => None,
    }
}

/// Whether the owner of the monitor of an object has entered it more than once.
fn is_entered_again(heap: &Heap, object: u32) -> bool
    ensures { result ≡ tells_owner (Some object) heap.now.locks.monitors }
{
    if object >= heap.len() {
        return false;
    }
    heap.entries(object) != 1
}

/// Whether the owner of the monitor that an invocation entered owned it before: it has entered it more than once.
fn was_owner(heap: &Heap, object: Option<u32>) -> bool
    ensures { result ≡ tells_owner object heap.now.locks.monitors }
{
    match object {
        Some(object) => is_entered_again(heap, object),
        None => false,
    }
}

/// The monitor that an event may have locked or unlocked: the one that a new invocation entered, and else the one that
/// was said to be meant before the event, by how many entries the stack of its thread had before it.
pub fn monitor_changed(
    heap: &Heap,
    stack: &ThreadStack,
    depth: usize,
    meant: MonitorBefore,
) -> MonitorBefore
    ensures { ChangesMonitor heap.now.locks.monitors stack.now depth meant result }
{
    let object = entered_since(stack, depth);
    match object {
        Some(_) => MonitorBefore {
            object,
            was_owner: was_owner(heap, object),
        },
        None => meant,
    }
}
