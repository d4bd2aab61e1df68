//! `Object.clone`.

ghost use Rattle.std.specs.Prelude.{◌≡◌, ℕ, slice_get, IfErr, IfOk, OnOk};
ghost use Rattle.heap.specs.Heap.{words_at};
ghost use Rattle.linked_code.specs.declared.method.BuiltInMethod.TheVariants as method;
ghost use Rattle.machine_instructions.specs.thread_methods.Called.{DoesCall};
ghost use Rattle.machine_instructions.specs.thread_methods.Clones.{copied_cells, IsCopied, IsCopyRefused};

use crate::thread_methods::moves::{answer, object};
use heap::{AllocRefusal, Heap, ObjectKind};
use linked_code::LinkedProgram;
use machine_state::method_selection::{class_at, classes_are_read};
use machine_state::{Effect, EventRefusal, MachineException, Shared};
use std::alloc::{AllocError, Global};
use thread_stacks::ThreadStack;

/// What a copy of an object may be made of: how many of its words count as cells. Nothing of an object that may not be
/// cloned.
fn copied_cells(program: &LinkedProgram, heap: &Heap, object: u32) -> Option<u32>
    ensures { result ≡ copied_cells program.now heap.now.objects object }
{
    match heap.class_of(object) {
        Some(ObjectKind::Instance { class }) => match class_at(program, class) {
            Some(row) if row.is_cloneable => Some(row.cells),
            _ => None,
        },
        Some(_) => Some(heap.length(object)),
        None => None,
    }
}

/// The words of an object.
fn words_of(alloc: Global, heap: &Heap, object: u32) -> Result<Vec<u32>, AllocError>
    ensures { IfOk result (λ words. words.items ≡ words_at heap.now.objects object) }
{
    Vec::from_slice(alloc, heap.words(object))
}

/// One more object of the kind of another, with the same words, of which so many count as cells. A refusal says which
/// limit stands, or that there was no memory; nothing has changed then.
fn copy(alloc: Global, heap: &mut Heap, object: u32, cells: u32) -> Result<(), AllocRefusal>
    ensures ok { OnOk result (IsCopied (slice_get heap.old.objects object) cells heap.old heap.new) }
    ensures err { IfErr result (λ refusal. IsCopyRefused refusal cells heap.old heap.new) }
{
    let Some(kind) = heap.class_of(object) else {
        return Ok(());
    };
    let _count = heap.length(object);
    let words = words_of(alloc, heap, object)?;
    heap.add_words(kind, &words, cells)
}

/// `clone`: a new object with the same words, where the object may be cloned.
pub(crate) fn clone(
    shared: &mut Shared,
    stack: &mut ThreadStack,
    program: &LinkedProgram,
    operands: usize,
    next: usize,
) -> Result<Effect, EventRefusal>
    ensures { (t : ℕ) → DoesCall program.now method.ObjectClone operands next
        (record { thread = t; pick = 0 }) result shared.old shared.new stack.old stack.new }
{
    classes_are_read();
    let alloc = *shared.printed.allocator();
    let object = object(stack, 0);
    let Some(cells) = copied_cells(program, &shared.heap, object) else {
        return Ok(Effect::Raises(MachineException::CloneNotSupported));
    };
    copy(alloc, &mut shared.heap, object, cells)?;
    let word = shared.heap.len();
    answer(stack, operands, next, word)
}
