//! What a call reads of the frame that calls.

ghost use Rattle.std.specs.Prelude.{◌≡◌};
ghost use Rattle.machine_instructions.specs.called_methods.Frames.{object_under, IsPlaceBehind, raised_by};

use machine_state::{Effect, MachineException};
use thread_stacks::ThreadStack;

/// The object of the reference under so many parameters, if it is not null.
#[inline]
pub fn receiver(stack: &ThreadStack, parameters: u8) -> Option<u32>
    ensures { result ≡ object_under parameters stack.now }
{
    match stack.frame() {
        Some(frame) => frame.operand(usize::from(parameters)).checked_sub(1),
        None => None,
    }
}

/// The place behind the call, which is no switch.
#[inline]
pub(crate) fn place_behind(stack: &ThreadStack) -> usize
    ensures { IsPlaceBehind stack.now result }
{
    match stack.frame() {
        Some(frame) => frame.place.saturating_add(1),
        None => 0,
    }
}

/// An exception is raised by an event that picks nothing; one that picks something is not enabled.
#[inline]
pub(crate) fn raised(pick: u16, fault: MachineException) -> Effect
    ensures { result ≡ raised_by pick fault }
{
    if pick == 0 {
        Effect::Raises(fault)
    } else {
        Effect::NotEnabled
    }
}
