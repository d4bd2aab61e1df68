//! The monitor that an invocation enters.

ghost use Rattle.std.specs.Prelude.{◌<◌};
ghost use Rattle.model.specs.BuiltInNumbers.{most_threads};
ghost use Rattle.machine_state.specs.invocations.Entering.{IsThere, SaysMayBegin, EntersFor};

use crate::{EventRefusal, Shared};
use heap::Heap;
use heap::monitor_events::{enter, may_enter};

/// Whether no other thread owns the monitor that an invocation enters, if it enters one.
#[inline]
pub(crate) fn may_begin(heap: &Heap, thread: u16, entered: Option<u32>) -> bool
    requires { IsThere entered heap.now }
    ensures { SaysMayBegin result thread entered heap.now }
{
    match entered {
        None => true,
        Some(object) => may_enter(heap, object, thread),
    }
}

/// The thread enters the monitor of an invocation, if it enters one that no other thread owns.
///
/// # Errors
///
/// At the limits of fat locks and of the entries of an owner, or where there is no memory. Nothing has changed then.
#[inline]
pub(crate) fn enter_for(
    shared: &mut Shared,
    thread: u16,
    entered: Option<u32>,
) -> Result<(), EventRefusal>
    requires there { IsThere entered shared.old.heap }
    requires numbered { thread < most_threads }
    ensures { EntersFor result thread entered shared.old shared.new }
{
    if let Some(object) = entered {
        enter(&mut shared.heap, object, thread)?;
    }
    Ok(())
}
