//! Threads: their start, their interruption, and what is asked of them.

ghost use Rattle.std.specs.Prelude.{◌≡◌, ◌<◌, ◌+◌, ℕ, length};
ghost use Rattle.model.specs.State.{WorldOf};
ghost use Rattle.model.specs.Worlds.{is_interrupted as model_interrupted};
ghost use Rattle.model.specs.BuiltInMethods.{bit};
ghost use Rattle.heap.specs.java_threads.Table.{thread_at as row_at};
ghost use Rattle.heap.specs.monitor_events.Tables.{among, AreStatusesWithin};
ghost use Rattle.linked_code.specs.declared.method.BuiltInMethod.TheVariants as method;
ghost use Rattle.machine_instructions.specs.thread_methods.Called.{DoesUnpicked};

use crate::thread_methods::growth::{add, spare};
use crate::thread_methods::moves::{answer, go_on, object};
use heap::java_threads::Threads;
use heap::{Heap, monitor_events as events};
use machine_state::{Effect, EventRefusal, MachineException, Shared};
use thread_stacks::ThreadStack;

/// The word of a boolean (JVMS 2.3.4).
fn word_of(flag: bool) -> u32
    ensures { result ≡ bit flag }
{
    if flag { 1 } else { 0 }
}

/// The word of a reference to an object of the heap.
fn reference(heap: &Heap, object: u32) -> u32
    requires { object < length heap.now.objects }
    ensures { result ≡ object + 1 }
{
    let _count = heap.len();
    object + 1
}

/// `Thread.start`: a thread that has not begun is there, unless one was started on the same object.
pub(crate) fn start(
    shared: &mut Shared,
    stack: &mut ThreadStack,
    operands: usize,
    next: usize,
) -> Result<Effect, EventRefusal>
    ensures { (t : ℕ) → DoesUnpicked method.ThreadStart operands next t result shared.old shared.new stack.old
        stack.new }
{
    let spare = spare(&shared.stacks, 1)?;
    let started = events::start(&mut shared.threads, object(stack, 0))?;
    if !started {
        return Ok(Effect::Raises(MachineException::IllegalThreadState));
    }
    let empty = ThreadStack::new(*shared.stacks.allocator());
    add(&mut shared.stacks, spare, empty);
    go_on(stack, operands, next);
    Ok(Effect::Done)
}

/// `Thread.interrupt` (JLS 17.2.3): nothing becomes of a thread that is not alive.
pub(crate) fn interrupt(
    shared: &mut Shared,
    stack: &mut ThreadStack,
    operands: usize,
    next: usize,
) -> Result<Effect, EventRefusal>
    requires { AreStatusesWithin shared.old.heap shared.old.threads }
    ensures { (t : ℕ) → DoesUnpicked method.ThreadInterrupt operands next t result shared.old shared.new stack.old
        stack.new }
{
    if let Some(target) = shared.threads.number(object(stack, 0)) {
        events::interrupt(&mut shared.heap, &mut shared.threads, target);
    }
    go_on(stack, operands, next);
    Ok(Effect::Done)
}

/// Whether the thread of a Thread object is interrupted; one that was not started is not.
fn is_interrupted(threads: &Threads, object: u32) -> bool
    ensures { (world : WorldOf ℕ) → result ≡ model_interrupted (among world threads.now) object }
{
    match threads.number(object) {
        Some(thread) => threads.interrupted(thread),
        None => false,
    }
}

/// `Thread.isInterrupted`.
pub(crate) fn ask_interrupted(
    shared: &Shared,
    stack: &mut ThreadStack,
    operands: usize,
    next: usize,
) -> Result<Effect, EventRefusal>
    ensures { (t : ℕ) → DoesUnpicked method.ThreadIsInterrupted operands next t result shared.now shared.now
        stack.old stack.new }
{
    let interrupted = is_interrupted(&shared.threads, object(stack, 0));
    answer(stack, operands, next, word_of(interrupted))
}

/// `Thread.interrupted`: whether the thread itself is interrupted, and its interrupt status is cleared.
pub(crate) fn take_interrupted(
    shared: &mut Shared,
    stack: &mut ThreadStack,
    thread: u16,
    operands: usize,
    next: usize,
) -> Result<Effect, EventRefusal>
    ensures { DoesUnpicked method.ThreadInterrupted operands next thread result shared.old shared.new stack.old
        stack.new }
{
    let interrupted = shared.threads.interrupted(thread);
    let done = answer(stack, operands, next, word_of(interrupted))?;
    events::set_interrupted(&mut shared.threads, thread, false);
    Ok(done)
}

/// `Thread.isAlive`.
pub(crate) fn ask_alive(
    shared: &Shared,
    stack: &mut ThreadStack,
    operands: usize,
    next: usize,
) -> Result<Effect, EventRefusal>
    ensures { (t : ℕ) → DoesUnpicked method.ThreadIsAlive operands next t result shared.now shared.now stack.old
        stack.new }
{
    let alive = events::is_alive(&shared.threads, object(stack, 0));
    answer(stack, operands, next, word_of(alive))
}

/// `Thread.currentThread`: the Thread object of the thread itself.
pub(crate) fn current_thread(
    shared: &Shared,
    stack: &mut ThreadStack,
    thread: u16,
    operands: usize,
    next: usize,
) -> Result<Effect, EventRefusal>
    requires { (row_at shared.now.threads.threads thread).object < length shared.now.heap.objects }
    ensures { DoesUnpicked method.ThreadCurrentThread operands next thread result shared.now shared.now stack.old
        stack.new }
{
    let object = shared.threads.object(thread);
    answer(stack, operands, next, reference(&shared.heap, object))
}

/// `Thread.join`: it waits while the target is alive, unless the thread itself is interrupted (JLS 17.2.3).
pub(crate) fn join(
    shared: &Shared,
    stack: &mut ThreadStack,
    thread: u16,
    operands: usize,
    next: usize,
) -> Result<Effect, EventRefusal>
    ensures { DoesUnpicked method.ThreadJoin operands next thread result shared.now shared.now stack.old stack.new }
{
    if events::is_alive(&shared.threads, object(stack, 0)) {
        if shared.threads.interrupted(thread) {
            return Ok(Effect::Interrupts);
        }
        return Ok(Effect::NotEnabled);
    }
    go_on(stack, operands, next);
    Ok(Effect::Done)
}
