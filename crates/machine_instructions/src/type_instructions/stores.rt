//! References that are stored in arrays.

ghost use Rattle.std.specs.Prelude.{◌≡◌, ℕ, Ok, slice_get};
ghost use Rattle.std.specs.Option.{option_and_then};
ghost use Rattle.linked_code.specs.declared.instruction.LinkedInstruction.TheVariants as linked;
ghost use Rattle.machine_state.specs.linked_frames.Frames.{DoesOwn};
ghost use Rattle.machine_instructions.specs.type_instructions.Words.{component_in, TestsStore};

use crate::leaving::leave_nothing;
use crate::type_instructions::casts::may_be;
use heap::{Heap, ObjectKind};
use linked_code::{LinkedProgram, LinkedType};
use machine_state::{Effect, MachineException, Shared};
use thread_stacks::ThreadStack;

/// The component type of an array of references.
#[inline]
fn component_of(program: &LinkedProgram, heap: &Heap, array: u32) -> Option<LinkedType>
    ensures { result ≡ option_and_then (component_in program.now.components.items) (slice_get heap.now.objects array) }
{
    match heap.class_of(array)? {
        ObjectKind::References { of } => program.components.get(of as usize).copied(),
        ObjectKind::Instance { .. } | ObjectKind::Ints | ObjectKind::Narrow(_) => None,
    }
}

/// Whether a word may stand in an array of references: null, or that of an instance of its component type.
#[inline]
fn may_stand_in(program: &LinkedProgram, heap: &Heap, array: u32, word: u32) -> bool
    ensures { TestsStore program.now heap.now.objects array word result }
{
    match component_of(program, heap, array) {
        Some(component) => may_be(program, heap, word, component),
        None => false,
    }
}

/// `aastore`: the operand on top goes into the array of the third one, at the index of the second. Null in place of
/// the array is a NullPointerException, an index outside an ArrayIndexOutOfBoundsException, and what may not stand in
/// the array an ArrayStoreException, in this order.
#[inline]
pub fn store_reference(
    shared: &mut Shared,
    stack: &mut ThreadStack,
    program: &LinkedProgram,
) -> Effect
    ensures { (t : ℕ) → DoesOwn program.now linked.StoreReference t
        (Ok result) shared.old shared.new stack.old stack.new }
{
    let Some(frame) = stack.frame() else {
        return Effect::NotEnabled;
    };
    let (word, index) = (frame.operand(0), frame.operand(1));
    let Some(array) = frame.operand(2).checked_sub(1) else {
        return Effect::Raises(MachineException::NullPointer);
    };
    if index >= shared.heap.length(array) {
        return Effect::Raises(MachineException::ArrayIndexOutOfBounds);
    }
    if !may_stand_in(program, &shared.heap, array, word) {
        return Effect::Raises(MachineException::ArrayStore);
    }
    shared.heap.put_element(array, index, word);
    leave_nothing(stack, 3)
}
