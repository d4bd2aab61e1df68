//! What an instruction on a monitor reads of its frame, and how it leaves it.

ghost use Rattle.std.specs.Prelude.{◌≡◌};
ghost use Rattle.machine_instructions.specs.monitor_instructions.Frames.{object_on, GoesOn};

use thread_stacks::ThreadStack;

/// The object of the reference on top, if it is not null.
#[inline]
pub(crate) fn object_on_top(stack: &ThreadStack) -> Option<u32>
    ensures { result ≡ object_on stack.now }
{
    match stack.frame() {
        Some(frame) => frame.operand(0).checked_sub(1),
        None => None,
    }
}

/// Takes the operand on top, and goes on at the next place.
#[inline]
pub(crate) fn go_on(stack: &mut ThreadStack)
    ensures { GoesOn stack.old stack.new }
{
    if let Some(frame) = stack.frame() {
        let next = frame.place.saturating_add(1);
        stack.pop(1);
        stack.go_on(next);
    }
}
