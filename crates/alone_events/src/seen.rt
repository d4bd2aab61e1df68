//! What is seen of a thread that runs in a frame.

ghost use Rattle.std.specs.Prelude.{◌≡◌, ◌↔◌, IsTrue};
ghost use Rattle.model.specs.Monitors.{owns as is_owned_by, monitor_at};
ghost use Rattle.alone_events.specs.Seen.{IsSeenIn, IsSeen, HasMovedBy};

use heap::Heap;
use machine::top_frames::goes_on;
use machine_state::Shared;
use thread_stacks::ThreadStack;

/// What is seen of a thread that runs, with no exception pending, and has a frame on top of its stack.
#[derive(Clone, Copy)]
pub struct Seen {
    /// How many entries its stack has.
    pub entries: usize,
    /// The object whose monitor the frame on top has entered.
    pub entered: Option<u32>,
}

/// What is seen of a stack with a frame on top.
fn seen_in(stack: &ThreadStack) -> Option<Seen>
    ensures { IsSeenIn stack.now result }
{
    let frame = stack.frame()?;
    let entered = frame.entered;
    Some(Seen {
        entries: stack.len(),
        entered,
    })
}

/// What is seen of a thread, if it runs, with no exception pending, and has a frame on top of its stack.
pub(crate) fn seen_of(shared: &Shared, thread: u16) -> Option<Seen>
    ensures { IsSeen shared.now thread result }
{
    if !goes_on(&shared.threads, thread) {
        return None;
    }
    match shared.stacks.get(usize::from(thread)) {
        Some(stack) => seen_in(stack),
        None => None,
    }
}

/// Whether a frame has called another one, which entered no monitor, or has returned, and had entered none.
pub(crate) fn has_moved(before: Seen, after: Seen) -> bool
    ensures { IsTrue result ↔ HasMovedBy before after }
{
    if after.entries > before.entries {
        after.entries - before.entries == 1 && after.entered.is_none()
    } else {
        before.entries - after.entries == 1 && before.entered.is_none()
    }
}

/// Whether a thread owns the monitor of an object.
pub(crate) fn owns(heap: &Heap, object: u32, thread: u16) -> bool
    ensures { result ≡ is_owned_by thread (monitor_at heap.now.locks.monitors object).owner }
{
    if object < heap.len() {
        heap.owner(object) == Some(thread)
    } else {
        false
    }
}
