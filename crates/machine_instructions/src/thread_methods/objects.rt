//! What objects tell of themselves: their number, and their class.

ghost use Rattle.heap.specs.Heap.{kind_of};
ghost use Rattle.machine_state.specs.exception_handlers.Errors.{class_in};
ghost use Rattle.std.specs.Prelude.{option_map, slice_get, ◌≡◌, ◌+◌, ◌<◌, ◌^◌, ℕ, suc};
ghost use Rattle.linked_code.specs.declared.method.BuiltInMethod.TheVariants as method;
ghost use Rattle.linked_code.specs.declared.program.LinkedProgram.{LinkedProgram};
ghost use Rattle.machine_state.specs.declared.state.Shared.{Shared};
ghost use Rattle.model.specs.BuiltInNumbers.{first_class_reference};
ghost use Rattle.model.specs.declared.object_method.ObjectMethod.TheVariants as object;
ghost use Rattle.machine_instructions.specs.thread_methods.Called.{DoesCall, DoesUnpicked};
ghost use Rattle.machine_instructions.specs.thread_methods.NewTexts.{GivesText};

use crate::thread_methods::moves::{answer, object, operand};
use crate::thread_methods::new_strings::add_string;
use crate::thread_methods::type_names::{class_name, object_name};
use heap::{Heap, ObjectKind};
use linked_code::LinkedProgram;
use machine_state::method_selection::classes_are_read;
use machine_state::{Effect, EventRefusal, MachineException, Shared};
use model::ObjectMethod;
use model::built_in::FIRST_CLASS_OBJECT;
use string_methods::described;
use thread_stacks::ThreadStack;

/// `hashCode`: the number of the object; so `identityHashCode`, 0 of null.
fn give_number(
    stack: &mut ThreadStack,
    operands: usize,
    next: usize,
) -> Result<Effect, EventRefusal>
    ensures hash { (shared : Shared) (t : ℕ)
        → DoesUnpicked (method.ObjectAnswers object.HashCode) operands next t result shared shared stack.old stack.new }
    ensures identity { (shared : Shared) (t : ℕ)
        → DoesUnpicked (method.ObjectAnswers object.IdentityHashCode) operands next t result shared shared
        stack.old stack.new }
{
    let number = object(stack, 0);
    answer(stack, operands, next, number)
}

/// The word of the Class object of a class.
fn class_word(class: u32) -> u32
    ensures { class < 2 ^ 16 → result ≡ suc (first_class_reference + class) }
{
    class.saturating_add(FIRST_CLASS_OBJECT + 1)
}

/// The class of an instance, by its number.
fn class_of(heap: &Heap, object: u32) -> Option<u32>
    ensures { result ≡ class_in (option_map kind_of (slice_get heap.now.objects object)) }
{
    match heap.class_of(object) {
        Some(ObjectKind::Instance { class }) => Some(class),
        _ => None,
    }
}

/// `getClass`: the Class object of the class of an instance; an array has none.
fn give_class(
    shared: &Shared,
    stack: &mut ThreadStack,
    operands: usize,
    next: usize,
) -> Result<Effect, EventRefusal>
    ensures { (t : ℕ) → DoesUnpicked (method.ObjectAnswers object.GetClass) operands next t result shared.now shared.now
        stack.old stack.new }
{
    match class_of(&shared.heap, object(stack, 0)) {
        Some(class) => answer(stack, operands, next, class_word(class)),
        None => Ok(Effect::Raises(MachineException::IncompatibleClassChange)),
    }
}

/// A new String of a text is the answer.
fn give_text(
    shared: &mut Shared,
    stack: &mut ThreadStack,
    text: &[u32],
    operands: usize,
    next: usize,
) -> Result<Effect, EventRefusal>
    ensures { GivesText text.now operands next result shared.old shared.new stack.old stack.new }
{
    add_string(&mut shared.heap, text)?;
    let word = shared.heap.len();
    answer(stack, operands, next, word)
}

/// `getName` of a Class: its class's name, with dots for slashes.
fn give_name(
    shared: &mut Shared,
    stack: &mut ThreadStack,
    program: &LinkedProgram,
    operands: usize,
    next: usize,
) -> Result<Effect, EventRefusal>
    ensures { (t : ℕ) → DoesCall program.now (method.ObjectAnswers object.ClassName) operands next
        (record { thread = t; pick = 0 }) result shared.old shared.new stack.old stack.new }
{
    classes_are_read();
    let alloc = *shared.printed.allocator();
    let class = object(stack, 0).saturating_sub(FIRST_CLASS_OBJECT);
    let name = class_name(alloc, program, class)?;
    give_text(shared, stack, &name, operands, next)
}

/// `described`: the name of an object's class or its array type, and an int behind it. Of null nothing is told.
fn give_description(
    shared: &mut Shared,
    stack: &mut ThreadStack,
    program: &LinkedProgram,
    operands: usize,
    next: usize,
) -> Result<Effect, EventRefusal>
    ensures { (t : ℕ) → DoesCall program.now (method.ObjectAnswers object.Described) operands next
        (record { thread = t; pick = 0 }) result shared.old shared.new stack.old stack.new }
{
    classes_are_read();
    let alloc = *shared.printed.allocator();
    let word = operand(stack, 1);
    if word == 0 {
        return Ok(Effect::Raises(MachineException::NullPointer));
    }
    let name = object_name(alloc, program, &shared.heap, word - 1)?;
    let text = described(alloc, &name, operand(stack, 0))?;
    give_text(shared, stack, &text, operands, next)
}

/// An object tells of itself what the API says.
pub(crate) fn answer_call(
    shared: &mut Shared,
    stack: &mut ThreadStack,
    program: &LinkedProgram,
    asked: ObjectMethod,
    operands: usize,
    next: usize,
) -> Result<Effect, EventRefusal>
    ensures { (t : ℕ) → DoesCall program.now (method.ObjectAnswers asked) operands next
        (record { thread = t; pick = 0 }) result shared.old shared.new stack.old stack.new }
{
    match asked {
        ObjectMethod::HashCode | ObjectMethod::IdentityHashCode => {
            give_number(stack, operands, next)
        }
        ObjectMethod::GetClass => give_class(shared, stack, operands, next),
        ObjectMethod::ClassName => give_name(shared, stack, program, operands, next),
        ObjectMethod::Described => give_description(shared, stack, program, operands, next),
    }
}
