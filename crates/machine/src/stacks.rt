//! The stack of a thread, while the thread does an event.

ghost use Rattle.std.specs.Prelude.{◌≡◌, slice_set};
ghost use Rattle.machine.specs.Machines.{Lends};

use std::mem::swap;
use thread_stacks::ThreadStack;

/// Takes the stack of a thread out, leaves another one in its place, and answers true. Where there is no such thread
/// it answers false, and nothing changes.
pub(crate) fn lend(stacks: &mut Vec<ThreadStack>, thread: u16, stack: &mut ThreadStack) -> bool
    ensures { Lends thread result stack.old stack.new stacks.old.items stacks.new.items }
{
    match stacks.get_mut(usize::from(thread)) {
        Some(place) => {
            swap(place, stack);
            true
        }
        None => false,
    }
}

/// Puts the stack of a thread in its place again, and takes out what stood there meanwhile.
pub(crate) fn give_back(stacks: &mut Vec<ThreadStack>, thread: u16, stack: &mut ThreadStack)
    ensures { stacks.new.items ≡ slice_set stacks.old.items thread stack.old }
{
    if let Some(place) = stacks.get_mut(usize::from(thread)) {
        swap(place, stack);
    }
}
