//! What the methods of StringBuilder do that have no code.

ghost use Rattle.std.specs.Prelude.{◌≡◌, ◌++◌, ℕ, true, IfOk, slice_get};
ghost use Rattle.linked_code.specs.declared.method.BuiltInMethod.TheVariants as method;
ghost use Rattle.model.specs.declared.builder_method.BuilderMethod.TheVariants as builder;
ghost use Rattle.linked_code.specs.declared.program.LinkedProgram.{LinkedProgram};
ghost use Rattle.machine_instructions.specs.thread_methods.Called.{DoesCall, DoesUnpicked};
ghost use Rattle.machine_instructions.specs.thread_methods.Builders.{is_builder_if, units_by, kept_word, kept_text};
ghost use Rattle.machine_instructions.specs.thread_methods.Builders.{with_kept, added_string, added_builder};
ghost use Rattle.machine_instructions.specs.thread_methods.Builders.{appended_by, appends};

use crate::thread_methods::moves::{answer, go_on, object, operand};
use crate::thread_methods::new_strings::add_string;
use crate::thread_methods::texts;
use heap::{Heap, ObjectKind};
use linked_code::LinkedProgram;
use machine_state::{Effect, EventRefusal, MachineException, Shared};
use model::BuilderMethod;
use model::built_in::STRING_BUILDER;
use std::alloc::{AllocError, Global};
use string_methods::{self};
use thread_stacks::ThreadStack;

/// The slot of the field `text` in a StringBuilder.
const TEXT: u32 = 0;

/// The units of the String to which a word refers; none of null, and of another object.
fn units_by(heap: &Heap, word: u32) -> &[u32]
    ensures { result.now ≡ units_by heap.now.objects word }
{
    match texts::text_by(heap, word) {
        Some(units) => units,
        None => &[],
    }
}

/// Whether an object is a StringBuilder.
fn is_builder(heap: &Heap, object: u32) -> bool
    ensures { result ≡ is_builder_if (slice_get heap.now.objects object) }
{
    match heap.class_of(object) {
        Some(ObjectKind::Instance { class }) => class == STRING_BUILDER as u32,
        _ => false,
    }
}

/// The word of the String that is the text of a StringBuilder; 0 of another object.
fn kept_word(heap: &Heap, builder: u32) -> u32
    ensures { result ≡ kept_word heap.now.objects builder }
{
    if is_builder(heap, builder) {
        heap.get_field(builder, TEXT)
    } else {
        0
    }
}

/// The text of a StringBuilder; none of another object.
fn kept_text(heap: &Heap, builder: u32) -> &[u32]
    ensures { result.now ≡ kept_text heap.now.objects builder }
{
    units_by(heap, kept_word(heap, builder))
}

/// A String becomes the text of a StringBuilder; another object stays.
fn keep(heap: &mut Heap, builder: u32, string: u32)
    ensures { heap.new ≡ record heap.old { objects = with_kept heap.old.objects builder string } }
{
    if is_builder(heap, builder) {
        heap.put_field(builder, TEXT, string);
    }
}

/// A text with that of a String behind it, to which a word refers; of null it is `null`.
fn with_string(
    alloc: Global,
    heap: &Heap,
    text: &[u32],
    string: u32,
) -> Result<Vec<u32>, AllocError>
    ensures { IfOk result (λ units. units.items ≡ text.now ++ added_string heap.now.objects string) }
{
    if string == 0 {
        string_methods::appended_null(alloc, text)
    } else {
        string_methods::appended(alloc, text, units_by(heap, string))
    }
}

/// A text with that of a StringBuilder behind it, to which a word refers; of null it is `null`.
fn with_builder(
    alloc: Global,
    heap: &Heap,
    text: &[u32],
    builder: u32,
) -> Result<Vec<u32>, AllocError>
    ensures { IfOk result (λ units. units.items ≡ text.now ++ added_builder heap.now.objects builder) }
{
    if builder == 0 {
        string_methods::appended_null(alloc, text)
    } else {
        string_methods::appended(alloc, text, kept_text(heap, builder - 1))
    }
}

/// The text of the receiver, which is under the operand on top, and behind it what a method adds of that.
fn appended_text(
    alloc: Global,
    heap: &Heap,
    stack: &ThreadStack,
    asked: BuilderMethod,
) -> Result<Vec<u32>, AllocError>
    ensures { IfOk result (λ units. units.items ≡ appended_by asked heap.now.objects stack.now) }
{
    let text = kept_text(heap, object(stack, 1));
    let word = operand(stack, 0);
    match asked {
        BuilderMethod::AppendString => with_string(alloc, heap, text, word),
        BuilderMethod::AppendInt => string_methods::appended_int(alloc, text, word.cast_signed()),
        BuilderMethod::AppendChar => string_methods::appended_char(alloc, text, word),
        BuilderMethod::AppendBuilder => with_builder(alloc, heap, text, word),
        BuilderMethod::ConstructEmpty
        | BuilderMethod::ConstructOfString
        | BuilderMethod::ToString => string_methods::appended(alloc, text, &[]),
    }
}

/// `append`: a new String has the text of the receiver and what is added, and becomes its text.
fn append(
    shared: &mut Shared,
    stack: &mut ThreadStack,
    asked: BuilderMethod,
    operands: usize,
    next: usize,
) -> Result<Effect, EventRefusal>
    ensures { (t : ℕ) → appends asked ≡ true
        → DoesUnpicked (method.StringBuilderBuilds asked) operands next t result shared.old shared.new
        stack.old stack.new }
{
    let alloc = *shared.printed.allocator();
    let units = appended_text(alloc, &shared.heap, stack, asked)?;
    add_string(&mut shared.heap, units.as_slice())?;
    let made = shared.heap.len();
    keep(&mut shared.heap, object(stack, 1), made);
    let receiver = operand(stack, 1);
    answer(stack, operands, next, receiver)
}

/// `<init>()`: the text is the constant of the empty text, of which this is the word.
fn construct_empty(
    shared: &mut Shared,
    stack: &mut ThreadStack,
    empty: u32,
    operands: usize,
    next: usize,
) -> Result<Effect, EventRefusal>
    ensures { (p : LinkedProgram) (t : ℕ) → p.empty_text ≡ empty
        → DoesCall p (method.StringBuilderBuilds builder.ConstructEmpty) operands next
        (record { thread = t; pick = 0 }) result shared.old shared.new stack.old stack.new }
{
    keep(&mut shared.heap, object(stack, 0), empty);
    go_on(stack, operands, next);
    Ok(Effect::Done)
}

/// `<init>(String)`: the String is the text.
fn construct_of_string(
    shared: &mut Shared,
    stack: &mut ThreadStack,
    operands: usize,
    next: usize,
) -> Result<Effect, EventRefusal>
    ensures { (t : ℕ) → DoesUnpicked (method.StringBuilderBuilds builder.ConstructOfString) operands next t result
        shared.old shared.new stack.old stack.new }
{
    let text = operand(stack, 0);
    if text == 0 {
        return Ok(Effect::Raises(MachineException::NullPointer));
    }
    keep(&mut shared.heap, object(stack, 1), text);
    go_on(stack, operands, next);
    Ok(Effect::Done)
}

/// `toString`: the String that is the text.
fn to_string(
    shared: &Shared,
    stack: &mut ThreadStack,
    operands: usize,
    next: usize,
) -> Result<Effect, EventRefusal>
    ensures { (t : ℕ) → DoesUnpicked (method.StringBuilderBuilds builder.ToString) operands next t result
        shared.now shared.now stack.old stack.new }
{
    let string = kept_word(&shared.heap, object(stack, 0));
    answer(stack, operands, next, string)
}

/// A method of StringBuilder does to the operands on top what the API says.
pub(crate) fn build(
    shared: &mut Shared,
    stack: &mut ThreadStack,
    program: &LinkedProgram,
    asked: BuilderMethod,
    operands: usize,
    next: usize,
) -> Result<Effect, EventRefusal>
    ensures { (t : ℕ) → DoesCall program.now (method.StringBuilderBuilds asked) operands next
        (record { thread = t; pick = 0 }) result shared.old shared.new stack.old stack.new }
{
    match asked {
        BuilderMethod::ConstructEmpty => {
            construct_empty(shared, stack, program.empty_text, operands, next)
        }
        BuilderMethod::ConstructOfString => construct_of_string(shared, stack, operands, next),
        BuilderMethod::AppendString
        | BuilderMethod::AppendInt
        | BuilderMethod::AppendChar
        | BuilderMethod::AppendBuilder => append(shared, stack, asked, operands, next),
        BuilderMethod::ToString => to_string(shared, stack, operands, next),
    }
}
