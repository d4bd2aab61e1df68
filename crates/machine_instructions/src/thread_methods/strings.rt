//! What the methods of String do that have no code.

ghost use Rattle.std.specs.Prelude.{ℕ};
ghost use Rattle.linked_code.specs.declared.method.BuiltInMethod.TheVariants as method;
ghost use Rattle.model.specs.StringMethods.{Answers};
ghost use Rattle.string_methods.specs.Answers.{IsAnswerIfAny};
ghost use Rattle.machine_instructions.specs.thread_methods.Called.{DoesUnpicked};
ghost use Rattle.machine_instructions.specs.thread_methods.Texts.{answer_by};

use crate::thread_methods::moves::{answer, operand};
use crate::thread_methods::new_strings::add_string;
use crate::thread_methods::texts::text;
use heap::Heap;
use machine_state::{Effect, EventRefusal, MachineException, Shared};
use model::StringMethod;
use std::alloc::{AllocError, Global};
use string_methods::{self, StringAnswer};
use thread_stacks::ThreadStack;

/// An answer that is an int, by its bits.
fn int(bits: u32) -> Option<Result<StringAnswer, AllocError>>
    ensures { IsAnswerIfAny result (Answers bits) }
{
    Some(Ok(StringAnswer::Int(bits)))
}

/// What a method answers of the operands on top; nothing where a null is none that it takes. The only error is a want
/// of memory for a new String.
fn answer_of(
    alloc: Global,
    heap: &Heap,
    stack: &ThreadStack,
    method: StringMethod,
) -> Option<Result<StringAnswer, AllocError>>
    ensures { IsAnswerIfAny result (answer_by method heap.now.objects stack.now) }
{
    match method {
        StringMethod::Length => int(string_methods::length(text(heap, stack, 0)?)),
        StringMethod::CharAt => {
            let this = text(heap, stack, 1)?;
            Some(Ok(string_methods::unit_at(this, operand(stack, 0))))
        }
        StringMethod::Equals => {
            let this = text(heap, stack, 1)?;
            int(u32::from(string_methods::is_same_text(this, text(heap, stack, 0))))
        }
        StringMethod::HashCode => int(string_methods::hash_code(text(heap, stack, 0)?)),
        StringMethod::CompareTo => {
            let this = text(heap, stack, 1)?;
            int(string_methods::compared(this, text(heap, stack, 0)?))
        }
        StringMethod::Concat => {
            let this = text(heap, stack, 1)?;
            Some(string_methods::joined(alloc, 1, this, text(heap, stack, 0)?))
        }
        StringMethod::Substring => {
            let this = text(heap, stack, 2)?;
            let (begin, end) = (operand(stack, 1), operand(stack, 0));
            Some(string_methods::part_of(alloc, 2, this, begin, end))
        }
        StringMethod::IndexOf => {
            let this = text(heap, stack, 2)?;
            int(string_methods::index_of(this, operand(stack, 1), operand(stack, 0)))
        }
        StringMethod::RegionMatches => {
            let this = text(heap, stack, 4)?;
            let other = text(heap, stack, 2)?;
            let at = operand(stack, 3).cast_signed();
            let from = operand(stack, 1).cast_signed();
            let count = operand(stack, 0).cast_signed();
            int(u32::from(string_methods::regions_match(this, at, other, from, count)))
        }
        StringMethod::ValueOfInt => {
            Some(string_methods::text_of_int(alloc, operand(stack, 0).cast_signed()))
        }
        StringMethod::ValueOfChar => Some(string_methods::text_of_char(alloc, operand(stack, 0))),
    }
}

/// A method of String answers of the operands on top: an int, a String that is among them, or a new one.
pub(crate) fn answer_call(
    shared: &mut Shared,
    stack: &mut ThreadStack,
    asked: StringMethod,
    operands: usize,
    next: usize,
) -> Result<Effect, EventRefusal>
    ensures { (t : ℕ) → DoesUnpicked (method.StringAnswers asked) operands next t result shared.old shared.new
        stack.old stack.new }
{
    let alloc = *shared.printed.allocator();
    let Some(answered) = answer_of(alloc, &shared.heap, stack, asked) else {
        return Ok(Effect::Raises(MachineException::NullPointer));
    };
    match answered? {
        StringAnswer::Outside => Ok(Effect::Raises(MachineException::StringIndexOutOfBounds)),
        StringAnswer::Int(bits) => answer(stack, operands, next, bits),
        StringAnswer::Same(place) => {
            let word = operand(stack, place);
            answer(stack, operands, next, word)
        }
        StringAnswer::Composed(units) => {
            add_string(&mut shared.heap, units.as_slice())?;
            let word = shared.heap.len();
            answer(stack, operands, next, word)
        }
    }
}
