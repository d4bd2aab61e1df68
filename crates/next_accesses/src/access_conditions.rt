//! Whether an instruction that names a variable goes on to read or write it (JVMS 5.5, 6.5): the class of a static
//! field is there, an array has the index, and may hold what is stored.
//!
//! # Proved
//!
//! - `goes_on`, by the words of a frame (`GoesOn`): of a static field whether the class that declares it is there for
//!   the thread; of an element whether the array is not null and has the index, and of `aastore` whether the value is null
//!   or an instance of the array's component type.
//!
//! # Not proved
//!
//! - That a reference to an object is not null: then the instruction names no variable.
//!
//! # Wrong bodies
//!
//! - `access_conditions-held-class-is-there`: a class that another thread initialises is there; refused by
//!   `is_class_ready`.
//! - `access_conditions-index-is-the-length`: an index that is the length is one of the array; refused by
//!   `has_element`.

ghost use Rattle.std.specs.Prelude.{◌≡◌, ◌<◌, slice_get};
ghost use Rattle.std.specs.Option.{option_and_then};
ghost use Rattle.thread_stacks.specs.Stacks.{shown_frame};
ghost use Rattle.machine_instructions.specs.type_instructions.Words.{TestsStore, TestsWord, component_in};
ghost use Rattle.next_accesses.specs.access_conditions.Conditions.{FieldGoesOn, GoesOn, IsClassReady, MayStore};
ghost use Rattle.next_accesses.specs.access_conditions.Conditions as conditions;

use crate::accesses::object_at;
use field_names::named_fields::NamedField;
use heap::{Heap, ObjectKind};
use linked_code::{LinkedProgram, LinkedType};
use machine_state::Shared;
use machine_state::class_initialisation::{ClassLook, look};
use machine_state::type_tests::is_object_below;
use model::{ArrayKind, FieldAccess, Instr};
use thread_stacks::Frame;

/// Whether the class of a number is there for a thread.
fn is_class_ready(shared: &Shared, thread: u16, class: u16) -> bool
    ensures { IsClassReady shared.now thread class result }
{
    match look(shared, thread, class) {
        ClassLook::Ready => true,
        ClassLook::New => false,
        ClassLook::Held => false,
        ClassLook::Failed => false,
    }
}

/// Whether the index is one of the array that lies under it, and that is not null.
fn has_element(heap: &Heap, frame: &Frame<'_>, under: usize) -> bool
    requires { under < 2 }
    ensures { result ≡ conditions.has_element heap.now.objects (shown_frame frame.now).operands under }
{
    match object_at(frame, under + 1) {
        Some(array) => frame.operand(under) < heap.length(array),
        None => false,
    }
}

/// The component type of an array of references.
fn component_of(program: &LinkedProgram, heap: &Heap, array: u32) -> Option<LinkedType>
    ensures { result ≡ option_and_then (component_in program.now.components.items) (slice_get heap.now.objects array) }
{
    match heap.class_of(array)? {
        ObjectKind::References { of } => program.components.get(of as usize).copied(),
        ObjectKind::Instance { .. } | ObjectKind::Ints | ObjectKind::Narrow(_) => None,
    }
}

/// Whether a word is null or that of an instance of a type.
fn may_be(program: &LinkedProgram, heap: &Heap, word: u32, of: LinkedType) -> bool
    ensures { TestsWord program.now heap.now.objects word of result }
{
    match word.checked_sub(1) {
        Some(object) => is_object_below(program, heap, object, of),
        None => true,
    }
}

/// Whether a word may stand in an array of references: null, or that of an instance of its component type.
fn may_stand_in(program: &LinkedProgram, heap: &Heap, array: u32, word: u32) -> bool
    ensures { TestsStore program.now heap.now.objects array word result }
{
    match component_of(program, heap, array) {
        Some(component) => may_be(program, heap, word, component),
        None => false,
    }
}

/// Whether the operand on top may stand in the array of the third one, if that is not null. Arrays of primitive types
/// narrow what they are given.
fn may_store(program: &LinkedProgram, heap: &Heap, frame: &Frame<'_>, kind: ArrayKind) -> bool
    ensures { MayStore program.now heap.now.objects (shown_frame frame.now).operands kind result }
{
    match kind {
        ArrayKind::Reference => match object_at(frame, 2) {
            Some(array) => may_stand_in(program, heap, array, frame.operand(0)),
            None => false,
        },
        _ => true,
    }
}

/// Whether an instruction on a field goes on: the class of a static field has to be there.
fn field_goes_on(
    shared: &Shared,
    thread: u16,
    access: FieldAccess,
    field: Option<NamedField>,
) -> bool
    ensures { FieldGoesOn shared.now thread access field result }
{
    match access {
        FieldAccess::GetField | FieldAccess::PutField => true,
        FieldAccess::GetStatic | FieldAccess::PutStatic => match field {
            Some(field) => is_class_ready(shared, thread, field.class),
            None => false,
        },
    }
}

/// Whether an instruction of the frame on top of a thread goes on to read or write the variable that it names; a field
/// that it names is handed in.
pub fn goes_on(
    program: &LinkedProgram,
    shared: &Shared,
    thread: u16,
    frame: &Frame<'_>,
    instruction: Instr,
    field: Option<NamedField>,
) -> bool
    ensures { GoesOn program.now shared.now thread (shown_frame frame.now).operands instruction field result }
{
    match instruction {
        Instr::Field { access, .. } => field_goes_on(shared, thread, access, field),
        Instr::LoadElement(_) => has_element(&shared.heap, frame, 0),
        Instr::StoreElement(kind) => {
            let may_store = may_store(program, &shared.heap, frame, kind);
            has_element(&shared.heap, frame, 1) && may_store
        }
        _ => true,
    }
}
