//! Wait sets (JLS 17.2).

ghost use Rattle.std.specs.Prelude.{◌≡◌, ◌<◌, ◌-◌, ℕ, length};
ghost use Rattle.model.specs.State.{WorldOf};
ghost use Rattle.heap.specs.monitor_events.Tables.{over};
ghost use Rattle.linked_code.specs.declared.method.BuiltInMethod.TheVariants as method;
ghost use Rattle.linked_code.specs.declared.program.LinkedProgram.{LinkedProgram};
ghost use Rattle.machine_instructions.specs.thread_methods.Moves.{operand_of, may_pick as may_pick_in};
ghost use Rattle.machine_instructions.specs.thread_methods.Called.{DoesCall, DoesUnpicked};

use crate::thread_methods::moves::{go_on, object, stay};
use heap::{Heap, monitor_events as events};
use machine_state::{Effect, EventRefusal, MachineException, Shared};
use thread_stacks::ThreadStack;

/// `Object.wait` (JLS 17.2.1): the thread joins the wait set, and stays at its call. One that is interrupted doesn't
/// join.
pub(crate) fn wait(
    shared: &mut Shared,
    stack: &mut ThreadStack,
    thread: u16,
    operands: usize,
    next: usize,
) -> Result<Effect, EventRefusal>
    requires there { operand_of 0 stack.old - 1 < length shared.old.heap.locks.monitors }
    requires started { thread < length shared.old.threads.threads }
    ensures { DoesUnpicked method.ObjectWait operands next thread result shared.old shared.new stack.old stack.new }
{
    let object = object(stack, 0);
    if !events::is_owner(&shared.heap, object, thread) {
        return Ok(Effect::Raises(MachineException::IllegalMonitorState));
    }
    if shared.threads.interrupted(thread) {
        return Ok(Effect::Interrupts);
    }
    let _count = shared.threads.len();
    events::wait(&mut shared.heap, &mut shared.threads, object, thread)?;
    stay(stack, operands);
    Ok(Effect::Done)
}

/// Whether a notify may pick the member of this number: where there is none, or by a thread that isn't the owner,
/// nothing is picked.
fn may_pick(heap: &Heap, object: u32, thread: u16, pick: u16) -> bool
    requires { object < length heap.now.locks.monitors }
    ensures { (world : WorldOf ℕ) → result ≡ may_pick_in (over world heap.now) object thread pick }
{
    if !events::is_owner(heap, object, thread) {
        return pick == 0;
    }
    let members = heap.waiter_count(object);
    if members > 0 {
        usize::from(pick) < members
    } else {
        pick == 0
    }
}

/// `Object.notify` (JLS 17.2.2): the member of the wait set that is picked leaves it, if there is one.
pub(crate) fn notify(
    shared: &mut Shared,
    stack: &mut ThreadStack,
    thread: u16,
    pick: u16,
    operands: usize,
    next: usize,
) -> Result<Effect, EventRefusal>
    requires { operand_of 0 stack.old - 1 < length shared.old.heap.locks.monitors }
    ensures { (p : LinkedProgram) → DoesCall p method.ObjectNotify operands next
        (record { thread = thread; pick = pick }) result shared.old shared.new stack.old
        stack.new }
{
    let object = object(stack, 0);
    if !may_pick(&shared.heap, object, thread, pick) {
        return Ok(Effect::NotEnabled);
    }
    if !events::notify(&mut shared.heap, &mut shared.threads, object, thread, pick) {
        return Ok(Effect::Raises(MachineException::IllegalMonitorState));
    }
    go_on(stack, operands, next);
    Ok(Effect::Done)
}

/// `Object.notifyAll` (JLS 17.2.2): all members leave the wait set.
pub(crate) fn notify_all(
    shared: &mut Shared,
    stack: &mut ThreadStack,
    thread: u16,
    operands: usize,
    next: usize,
) -> Result<Effect, EventRefusal>
    requires { operand_of 0 stack.old - 1 < length shared.old.heap.locks.monitors }
    ensures { DoesUnpicked method.ObjectNotifyAll operands next thread result shared.old shared.new stack.old
        stack.new }
{
    let object = object(stack, 0);
    if !events::notify_all(&mut shared.heap, &mut shared.threads, object, thread) {
        return Ok(Effect::Raises(MachineException::IllegalMonitorState));
    }
    go_on(stack, operands, next);
    Ok(Effect::Done)
}
