//! New objects, and the words of their references.

ghost use Rattle.std.specs.Prelude.{◌≡◌};
ghost use Rattle.heap.specs.declared.kind.ObjectKind.{ObjectKind};
ghost use Rattle.heap.specs.Heap.{Allocates};
ghost use Rattle.thread_stacks.specs.Stacks.{shown_frame};
ghost use Rattle.machine_instructions.specs.type_instructions.Leaving.{LeavesNewTop};

use crate::leaving::next_place;
use heap::{AllocRefusal, Heap, ObjectKind};
use machine_state::{Effect, EventRefusal};
use thread_stacks::ThreadStack;

/// One more object of a kind, with so many words, which are 0 and count as cells.
#[inline]
fn allocate(heap: &mut Heap, kind: ObjectKind, cells: u32) -> Result<u32, AllocRefusal>
    ensures { Allocates result kind cells cells heap.old heap.new }
{
    match kind {
        ObjectKind::Instance { class } => heap.alloc_object(class, cells, cells),
        ObjectKind::Ints => heap.alloc_ints(cells),
        ObjectKind::References { of } => heap.alloc_refs(of, cells),
        ObjectKind::Narrow(narrow) => heap.alloc_narrow(narrow, cells),
    }
}

/// A new object of a class, with so many fields, of which so many count as cells: its word goes onto the stack, and the
/// frame goes on at the next place.
///
/// # Errors
///
/// Where a limit stands, or there is no memory; nothing has changed then.
#[inline]
pub(crate) fn leave_new(
    heap: &mut Heap,
    stack: &mut ThreadStack,
    class: u32,
    fields: u32,
    cells: u32,
) -> Result<Effect, EventRefusal>
    ensures { LeavesNewTop result (ObjectKind.Instance class) fields cells 0 heap.old heap.new stack.old stack.new }
{
    let next = next_place(stack);
    stack.replace(0, 0)?;
    match heap.alloc_object(class, fields, cells) {
        Ok(reference) => {
            stack.set_top(reference + 1);
            stack.go_on(next);
            Ok(Effect::Done)
        }
        Err(refusal) => {
            stack.pop(1);
            Err(refusal.into())
        }
    }
}

/// Leaves a new object of a kind as `leave_new` does, all of whose words count as cells, where its word takes the place
/// of the operand on top.
///
/// # Errors
///
/// The errors of `leave_new`.
#[inline]
pub(crate) fn leave_new_on_top(
    heap: &mut Heap,
    stack: &mut ThreadStack,
    kind: ObjectKind,
    cells: u32,
) -> Result<Effect, EventRefusal>
    ensures { LeavesNewTop result kind cells cells 1 heap.old heap.new stack.old stack.new }
{
    let next = next_place(stack);
    let reference = allocate(heap, kind, cells)?;
    stack.set_top(reference + 1);
    stack.go_on(next);
    Ok(Effect::Done)
}
