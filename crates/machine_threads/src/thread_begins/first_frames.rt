//! The first frame of a thread.

ghost use Rattle.std.specs.Prelude.{◌<◌};
ghost use Rattle.model.specs.BuiltInNumbers.{most_threads};
ghost use Rattle.machine_state.specs.invocations.Entering.{IsThere};
ghost use Rattle.machine_threads.specs.thread_begins.First.{PushesFirst};

use crate::thread_begins::begun::begin_where_done;
use machine_state::invocations::first_call;
use machine_state::{Effect, EventRefusal, MachineException, Shared};
use thread_stacks::{Callee, ThreadStack};

/// A thread calls its first method with one argument, by its word, and has begun then. Where a stack may have no
/// frame, a StackOverflowError is raised (JVMS 2.5.2), and where another thread owns the monitor that the call
/// enters, the event isn't enabled. In both cases the thread hasn't begun.
///
/// # Errors
///
/// At the limits of fat locks and of the entries of an owner, or where there is no memory. Nothing has changed then.
pub fn push_first(
    shared: &mut Shared,
    stack: &mut ThreadStack,
    thread: u16,
    callee: Callee,
    argument: u32,
    frames: usize,
) -> Result<Effect, EventRefusal>
    requires there { IsThere callee.entered shared.old.heap }
    requires numbered { thread < most_threads }
    ensures { PushesFirst result thread callee argument frames shared.old shared.new stack.old stack.new }
{
    if frames == 0 {
        return Ok(Effect::Raises(MachineException::StackOverflow));
    }
    match first_call(shared, stack, thread, callee, &[argument], frames) {
        Ok(effect) => {
            begin_where_done(shared, thread, effect);
            Ok(effect)
        }
        Err(refusal) => Err(refusal),
    }
}
