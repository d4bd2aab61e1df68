//! How threads are named: the constructors of Thread, `getName` and `setName`.

ghost use Rattle.std.specs.Prelude.{◌≡◌, ℕ, IfOk};
ghost use Rattle.heap.specs.Heap.{word_at};
ghost use Rattle.linked_code.specs.declared.method.BuiltInMethod.TheVariants as method;
ghost use Rattle.model.specs.declared.name_method.NameMethod.TheVariants as named;
ghost use Rattle.machine_instructions.specs.thread_methods.Called.{DoesUnpicked};
ghost use Rattle.machine_instructions.specs.thread_methods.Naming.{numbered, numbered_name};

use crate::thread_methods::moves::{answer, go_on, object, operand};
use crate::thread_methods::new_strings::add_string;
use heap::Heap;
use machine_state::{Effect, EventRefusal, MachineException, Shared};
use model::NameMethod;
use std::alloc::{AllocError, Global};
use string_methods::thread_name;
use thread_stacks::ThreadStack;

/// The slot of the field `target` in an object of Thread or of a class below it.
const TARGET: u32 = 0;

/// The slot of the field `name`.
const NAME: u32 = 1;

/// The slot of the field `number`, which is which of the Threads without a name it is.
const NUMBER: u32 = 2;

/// A Thread keeps that it is the next one without a name.
fn number(shared: &mut Shared, thread: u32)
    ensures { shared.new ≡ numbered shared.old thread }
{
    shared.heap.put_field(thread, NUMBER, shared.unnamed);
    shared.unnamed = shared.unnamed.wrapping_add(1);
}

/// `<init>()`.
fn construct(
    shared: &mut Shared,
    stack: &mut ThreadStack,
    operands: usize,
    next: usize,
) -> Result<Effect, EventRefusal>
    ensures { (t : ℕ) → DoesUnpicked (method.ThreadNames named.Construct) operands next t result
        shared.old shared.new stack.old stack.new }
{
    number(shared, object(stack, 0));
    go_on(stack, operands, next);
    Ok(Effect::Done)
}

/// `<init>(Runnable)`: the Thread keeps its target.
fn construct_with_target(
    shared: &mut Shared,
    stack: &mut ThreadStack,
    operands: usize,
    next: usize,
) -> Result<Effect, EventRefusal>
    ensures { (t : ℕ) → DoesUnpicked (method.ThreadNames named.ConstructWithTarget) operands next t result
        shared.old shared.new stack.old stack.new }
{
    let thread = object(stack, 1);
    let target = operand(stack, 0);
    shared.heap.put_field(thread, TARGET, target);
    number(shared, thread);
    go_on(stack, operands, next);
    Ok(Effect::Done)
}

/// `<init>(String)` and `setName`: the Thread keeps its name, which is not null.
fn set_name(
    shared: &mut Shared,
    stack: &mut ThreadStack,
    operands: usize,
    next: usize,
) -> Result<Effect, EventRefusal>
    ensures construct { (t : ℕ) → DoesUnpicked (method.ThreadNames named.ConstructWithName) operands next t result
        shared.old shared.new stack.old stack.new }
    ensures set { (t : ℕ) → DoesUnpicked (method.ThreadNames named.SetName) operands next t result
        shared.old shared.new stack.old stack.new }
{
    let name = operand(stack, 0);
    if name == 0 {
        return Ok(Effect::Raises(MachineException::NullPointer));
    }
    shared.heap.put_field(object(stack, 1), NAME, name);
    go_on(stack, operands, next);
    Ok(Effect::Done)
}

/// `<init>(Runnable, String)`: the Thread keeps its target and its name, which is not null.
fn construct_with_target_and_name(
    shared: &mut Shared,
    stack: &mut ThreadStack,
    operands: usize,
    next: usize,
) -> Result<Effect, EventRefusal>
    ensures { (t : ℕ) → DoesUnpicked (method.ThreadNames named.ConstructWithTargetAndName) operands next t result
        shared.old shared.new stack.old stack.new }
{
    let thread = object(stack, 2);
    let (target, name) = (operand(stack, 1), operand(stack, 0));
    if name == 0 {
        return Ok(Effect::Raises(MachineException::NullPointer));
    }
    shared.heap.put_field(thread, TARGET, target);
    shared.heap.put_field(thread, NAME, name);
    go_on(stack, operands, next);
    Ok(Effect::Done)
}

/// The text of the name of a Thread that has none. The only error is a want of memory.
fn new_name(alloc: Global, heap: &Heap, thread: u32) -> Result<Vec<u32>, AllocError>
    ensures { IfOk result (λ units. units.items ≡ numbered_name (word_at heap.now.objects thread 2)) }
{
    thread_name(alloc, heap.get_field(thread, NUMBER).cast_signed())
}

/// `getName`: the name; where there is none, a new String becomes it.
fn get_name(
    shared: &mut Shared,
    stack: &mut ThreadStack,
    operands: usize,
    next: usize,
) -> Result<Effect, EventRefusal>
    ensures { (t : ℕ) → DoesUnpicked (method.ThreadNames named.GetName) operands next t result
        shared.old shared.new stack.old stack.new }
{
    let thread = object(stack, 0);
    let name = shared.heap.get_field(thread, NAME);
    if name != 0 {
        return answer(stack, operands, next, name);
    }
    let alloc = *shared.printed.allocator();
    let text = new_name(alloc, &shared.heap, thread)?;
    add_string(&mut shared.heap, text.as_slice())?;
    let word = shared.heap.len();
    shared.heap.put_field(thread, NAME, word);
    answer(stack, operands, next, word)
}

/// A constructor of Thread, or a method that reads or sets its name, does what the API says.
pub(crate) fn name_call(
    shared: &mut Shared,
    stack: &mut ThreadStack,
    asked: NameMethod,
    operands: usize,
    next: usize,
) -> Result<Effect, EventRefusal>
    ensures { (t : ℕ) → DoesUnpicked (method.ThreadNames asked) operands next t result
        shared.old shared.new stack.old stack.new }
{
    match asked {
        NameMethod::Construct => construct(shared, stack, operands, next),
        NameMethod::ConstructWithTarget => construct_with_target(shared, stack, operands, next),
        NameMethod::ConstructWithName | NameMethod::SetName => {
            set_name(shared, stack, operands, next)
        }
        NameMethod::ConstructWithTargetAndName => {
            construct_with_target_and_name(shared, stack, operands, next)
        }
        NameMethod::GetName => get_name(shared, stack, operands, next),
    }
}
