//! `monitorenter` and `monitorexit`. Structured locking isn't asked for.

ghost use Rattle.std.specs.Prelude.{Ok};
ghost use Rattle.linked_code.specs.declared.instruction.LinkedInstruction.TheVariants as linked;
ghost use Rattle.linked_code.specs.declared.program.LinkedProgram.{LinkedProgram};
ghost use Rattle.machine_state.specs.linked_frames.Frames.{CanRun, DoesOwn};

use crate::monitor_instructions::frames::{go_on, object_on_top};
use heap::monitor_events as events;
use machine_state::{Effect, EventRefusal, MachineException, Shared};
use thread_stacks::ThreadStack;

/// `monitorenter`: the thread enters the monitor of the object on top once; it waits while another thread owns it.
///
/// # Errors
///
/// Where the lock would become one of too many fat locks, the owner has entered 4,294,967,295 times, or there is no
/// memory. Nothing has changed then.
#[inline]
pub fn monitor_enter(
    shared: &mut Shared,
    stack: &mut ThreadStack,
    thread: u16,
) -> Result<Effect, EventRefusal>
    requires { (p : LinkedProgram) × CanRun p thread shared.old stack.old linked.MonitorEnter }
    ensures { (p : LinkedProgram)
        → DoesOwn p linked.MonitorEnter thread result shared.old shared.new stack.old stack.new }
{
    let Some(object) = object_on_top(stack) else {
        return Ok(Effect::Raises(MachineException::NullPointer));
    };
    let _count = shared.threads.len();
    let entered = events::enter(&mut shared.heap, object, thread)?;
    if !entered {
        return Ok(Effect::NotEnabled);
    }
    go_on(stack);
    Ok(Effect::Done)
}

/// `monitorexit`: the thread leaves the monitor of the object on top once. One that doesn't own it gets an
/// IllegalMonitorStateException.
#[inline]
pub fn monitor_exit(shared: &mut Shared, stack: &mut ThreadStack, thread: u16) -> Effect
    requires { (p : LinkedProgram) × CanRun p thread shared.old stack.old linked.MonitorExit }
    ensures { (p : LinkedProgram)
        → DoesOwn p linked.MonitorExit thread (Ok result) shared.old shared.new stack.old stack.new }
{
    let Some(object) = object_on_top(stack) else {
        return Effect::Raises(MachineException::NullPointer);
    };
    if !events::exit(&mut shared.heap, object, thread) {
        return Effect::Raises(MachineException::IllegalMonitorState);
    }
    go_on(stack);
    Effect::Done
}
