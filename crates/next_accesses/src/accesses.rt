//! The variable that an instruction reads or writes (JLS 17.4.1, 17.4.2).
//!
//! # Proved
//!
//! - `access_of`: by the words of a frame and the field that the instruction names, the read or the write that it does
//!   where it goes on, and none where it does none (`TellsAccess`): by the names of the class files, that of the
//!   definitions (`access_by`), whose class and field are there, with whether the field is volatile (`IsRight`).
//!
//! # Not proved
//!
//! - That the instruction and its field are those of the frame is for whoever calls; so is whether it goes on.
//!
//! # Wrong bodies
//!
//! - `accesses-element-of-the-index`: an element is told of the object whose word is the index; refused by
//!   `element`.
//! - `accesses-put-reads`: a put is told as a read; refused by `field_access`.

ghost use Rattle.std.specs.Prelude.{◌≡◌, ◌<◌, ◌+◌, slice_index_or};
ghost use Rattle.model.specs.Operands.{word_reference};
ghost use Rattle.thread_stacks.specs.Stacks.{shown_frame};
ghost use Rattle.next_accesses.specs.accesses.Accesses.{TellsAccess, element_of, field_action, instance_of};
ghost use Rattle.next_accesses.specs.accesses.Accesses.{read_of, static_of, write_of};

use field_names::named_fields::NamedField;
use model::{FieldAccess, Instr};
use race_places::run_actions::{Action, Variable};
use thread_stacks::Frame;

/// The object of the operand under so many others, if that is not null.
pub(crate) fn object_at(frame: &Frame<'_>, under: usize) -> Option<u32>
    ensures { result ≡ word_reference (slice_index_or (shown_frame frame.now).operands under 0) }
{
    frame.operand(under).checked_sub(1)
}

/// A field of an object, if that is not null.
fn instance_field(object: Option<u32>, field: NamedField) -> Option<Variable>
    ensures { result ≡ instance_of object field }
{
    match object {
        Some(object) => Some(Variable::InstanceField {
            object,
            class: field.class,
            field: field.field,
        }),
        None => None,
    }
}

fn static_field(field: NamedField) -> Variable
    ensures { result ≡ static_of field }
{
    Variable::StaticField {
        class: field.class,
        field: field.field,
    }
}

/// A read of a variable, if there is one.
pub(crate) fn read(variable: Option<Variable>, is_volatile: bool) -> Option<Action>
    ensures { result ≡ read_of is_volatile variable }
{
    match variable {
        Some(variable) => Some(Action::Read {
            variable,
            is_volatile,
        }),
        None => None,
    }
}

/// A write of a variable, if there is one.
pub(crate) fn write(variable: Option<Variable>, is_volatile: bool) -> Option<Action>
    ensures { result ≡ write_of is_volatile variable }
{
    match variable {
        Some(variable) => Some(Action::Write {
            variable,
            is_volatile,
        }),
        None => None,
    }
}

/// What an instruction on a field reads or writes.
fn field_access(frame: &Frame<'_>, access: FieldAccess, field: NamedField) -> Option<Action>
    ensures { result ≡ field_action (shown_frame frame.now).operands access field }
{
    if !field.is_variable {
        return None;
    }
    match access {
        FieldAccess::GetStatic => read(Some(static_field(field)), field.is_volatile),
        FieldAccess::PutStatic => write(Some(static_field(field)), field.is_volatile),
        FieldAccess::GetField => read(
            instance_field(object_at(frame, 0), field),
            field.is_volatile,
        ),
        FieldAccess::PutField => write(
            instance_field(object_at(frame, 1), field),
            field.is_volatile,
        ),
    }
}

/// An element of an array, if that is not null: the index lies on top of the array.
fn element(frame: &Frame<'_>, under: usize) -> Option<Variable>
    requires { under < 2 }
    ensures { result ≡ element_of (shown_frame frame.now).operands under }
{
    match object_at(frame, under + 1) {
        Some(array) => Some(Variable::Element {
            array,
            index: frame.operand(under),
        }),
        None => None,
    }
}

/// What the instruction of a frame reads or writes, where it goes on; a field that it names is handed in.
pub fn access_of(frame: &Frame<'_>, instruction: Instr, field: Option<NamedField>) -> Option<Action>
    ensures { TellsAccess (shown_frame frame.now).operands instruction field result }
{
    match instruction {
        Instr::Field { access, .. } => match field {
            Some(field) => field_access(frame, access, field),
            None => None,
        },
        Instr::LoadElement(_) => read(element(frame, 0), false),
        Instr::StoreElement(_) => write(element(frame, 1), false),
        _ => None,
    }
}
