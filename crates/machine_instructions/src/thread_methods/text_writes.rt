//! The constructors of String, and those of its methods without code that ask for more than texts and ints.

ghost use Rattle.std.specs.Prelude.{◌≡◌, ℕ};
ghost use Rattle.linked_code.specs.declared.method.BuiltInMethod.TheVariants as method;
ghost use Rattle.model.specs.declared.text_method.TextMethod.TheVariants as asks;
ghost use Rattle.machine_instructions.specs.thread_methods.Called.{DoesCall, DoesUnpicked};
ghost use Rattle.machine_instructions.specs.thread_methods.TextWrites.{BecomesText};

use crate::thread_methods::chars::{elements, put_units};
use crate::thread_methods::growth::{add, spare};
use crate::thread_methods::interned::standing_for;
use crate::thread_methods::moves::{answer, go_on, object, operand};
use crate::thread_methods::new_strings::fill_string;
use crate::thread_methods::texts::text;
use linked_code::LinkedProgram;
use machine_state::raised_exceptions::word_of;
use machine_state::{Effect, EventRefusal, MachineException, Shared};
use model::TextMethod;
use string_methods::{chars, has_bounds, has_part, has_room};
use thread_stacks::ThreadStack;

/// The receiver under so many operands gets these units.
fn become_text(
    shared: &mut Shared,
    stack: &mut ThreadStack,
    under: usize,
    units: &[u32],
    operands: usize,
    next: usize,
) -> Result<Effect, EventRefusal>
    ensures { BecomesText under units.now operands next result shared.old shared.new stack.old stack.new }
{
    fill_string(&mut shared.heap, object(stack, under), units)?;
    go_on(stack, operands, next);
    Ok(Effect::Done)
}

/// `<init>(String)`: the text of another String.
fn construct_of_string(
    shared: &mut Shared,
    stack: &mut ThreadStack,
    operands: usize,
    next: usize,
) -> Result<Effect, EventRefusal>
    ensures { (t : ℕ) → DoesUnpicked (method.StringWrites asks.ConstructOfString) operands next t result
        shared.old shared.new stack.old stack.new }
{
    let alloc = *shared.printed.allocator();
    let Some(text) = text(&shared.heap, stack, 0) else {
        return Ok(Effect::Raises(MachineException::NullPointer));
    };
    let units = Vec::from_slice(alloc, text)?;
    become_text(shared, stack, 1, &units, operands, next)
}

/// `<init>(char[], int, int)`: chars of an array, so many from an offset on.
fn construct_of_chars(
    shared: &mut Shared,
    stack: &mut ThreadStack,
    operands: usize,
    next: usize,
) -> Result<Effect, EventRefusal>
    ensures { (t : ℕ) → DoesUnpicked (method.StringWrites asks.ConstructOfChars) operands next t result
        shared.old shared.new stack.old stack.new }
{
    let alloc = *shared.printed.allocator();
    let word = operand(stack, 2);
    let offset = operand(stack, 1);
    let count = operand(stack, 0);
    let Some(array) = elements(&shared.heap, word) else {
        return Ok(Effect::Raises(MachineException::NullPointer));
    };
    if !has_part(array, offset, count) {
        return Ok(Effect::Raises(MachineException::StringIndexOutOfBounds));
    }
    let begin = offset as usize;
    let units = chars(alloc, &array[begin..begin + count as usize])?;
    become_text(shared, stack, 3, &units, operands, next)
}

/// `getChars`: units of the text become elements of an array, from an index on.
fn get_chars(
    shared: &mut Shared,
    stack: &mut ThreadStack,
    operands: usize,
    next: usize,
) -> Result<Effect, EventRefusal>
    ensures { (t : ℕ) → DoesUnpicked (method.StringWrites asks.GetChars) operands next t result
        shared.old shared.new stack.old stack.new }
{
    let begin = operand(stack, 3);
    let end = operand(stack, 2);
    let word = operand(stack, 1);
    let index = operand(stack, 0);
    let Some(text) = text(&shared.heap, stack, 4) else {
        return Ok(Effect::Raises(MachineException::NullPointer));
    };
    let Some(array) = elements(&shared.heap, word) else {
        return Ok(Effect::Raises(MachineException::NullPointer));
    };
    if !has_bounds(text, begin, end) {
        return Ok(Effect::Raises(MachineException::StringIndexOutOfBounds));
    }
    let count = end - begin;
    if !has_room(array, index, count) {
        return Ok(Effect::Raises(MachineException::ArrayIndexOutOfBounds));
    }
    let string = object(stack, 4);
    let to = object(stack, 1);
    put_units(&mut shared.heap, string, begin, to, index, count);
    go_on(stack, operands, next);
    Ok(Effect::Done)
}

/// `intern`: the String that stands for the text, which is the receiver from now on where there is none.
fn intern(
    shared: &mut Shared,
    stack: &mut ThreadStack,
    program: &LinkedProgram,
    operands: usize,
    next: usize,
) -> Result<Effect, EventRefusal>
    ensures { (t : ℕ) → DoesCall program.now (method.StringWrites asks.Intern) operands next
        (record { thread = t; pick = 0 }) result shared.old shared.new stack.old stack.new }
{
    let Some(text) = text(&shared.heap, stack, 0) else {
        return Ok(Effect::Raises(MachineException::NullPointer));
    };
    match standing_for(&shared.heap, program, &shared.interned, text) {
        Some(string) => {
            let word = word_of(&shared.heap, string);
            answer(stack, operands, next, word)
        }
        None => {
            let spare = spare(&shared.interned, 1)?;
            add(&mut shared.interned, spare, object(stack, 0));
            let word = operand(stack, 0);
            answer(stack, operands, next, word)
        }
    }
}

/// A constructor of String, or a method that takes its text apart, does to the operands on top what the API says.
pub(crate) fn write_call(
    shared: &mut Shared,
    stack: &mut ThreadStack,
    program: &LinkedProgram,
    asked: TextMethod,
    operands: usize,
    next: usize,
) -> Result<Effect, EventRefusal>
    ensures { (t : ℕ) → DoesCall program.now (method.StringWrites asked) operands next
        (record { thread = t; pick = 0 }) result shared.old shared.new stack.old stack.new }
{
    match asked {
        TextMethod::ConstructEmpty => become_text(shared, stack, 0, &[], operands, next),
        TextMethod::ConstructOfString => construct_of_string(shared, stack, operands, next),
        TextMethod::ConstructOfChars => construct_of_chars(shared, stack, operands, next),
        TextMethod::GetChars => get_chars(shared, stack, operands, next),
        TextMethod::Intern => intern(shared, stack, program, operands, next),
    }
}
