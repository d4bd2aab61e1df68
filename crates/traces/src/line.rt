//! The line of an event.

ghost use Rattle.std.specs.Prelude.{OnOk};
ghost use Rattle.traces.specs.traced_events.Places.{Sees};
ghost use Rattle.traces.specs.Lines.{AddsLine, AddsMembers};

use crate::deed_words::{monitor_of, printed_since, started_by, word_of};
use crate::form::Form;
use crate::members::{DeedMembers, push_deed_members};
use crate::names::ProgramNames;
use crate::parts::{Part, push_did, push_end, push_head, push_part};
use crate::places::{push_instruction, push_place, push_source};
use crate::said::Said;
use crate::sorts::{Sort, sort_of};
use crate::traced_events::{Before, Told, told_of};
use crate::words::Words;
use classfile::Reference;
use hierarchy::{ClassSet, MemberPlace};
use linker::Linked;
use machine_state::Shared;
use model::built_in::BUILT_IN_CLASSES;
use model::{Event, Instr};
use opcodes::decode_at;
use std::alloc::AllocError;
use types::method_code::MethodCode;

/// What a line is of: an event that was done, by its number, counted from 0; and the form of the line.
#[derive(Clone, Copy)]
pub struct Line {
    pub number: u64,
    pub event: Event,
    pub form: Form,
}

const SOURCE: Part = Part {
    mark: " ",
    key: "source",
};

const INSTRUCTION: Part = Part {
    mark: " ",
    key: "instruction",
};

/// The field that an instruction names.
fn field_of<'a>(method: &MethodCode<'a>, instr: Instr) -> Option<Reference<'a>> {
    match instr {
        Instr::Field { index, .. } => method.file.field_reference(index),
        _ => None,
    }
}

/// The flags of the field at a place (JVMS table 4.5-A); none where there is no field.
fn flags_at(set: &ClassSet, place: MemberPlace) -> u16 {
    match set.class_at(place.class) {
        Some(class) => match class.fields.get(place.member) {
            Some(field) => field.flags,
            None => 0,
        },
        None => 0,
    }
}

/// The flags of the field that is named; none where there is no field, or where its class is built in.
fn flags_of(linked: &Linked, field: Option<Reference<'_>>) -> u16 {
    let Some(field) = field else {
        return 0;
    };
    match linked.hierarchy().find_field(field) {
        Some(place) if place.class >= BUILT_IN_CLASSES => flags_at(linked.set(), place),
        _ => 0,
    }
}

/// The instruction at which a thread stood before its event, if it stood at one, and its method.
fn instr_before<'a>(
    names: &'a ProgramNames<'_>,
    before: &Before,
) -> Option<(MethodCode<'a>, Instr)> {
    let frame = before.frame?;
    let method = names.method(frame.method)?;
    let instr = decode_at(&method.code().code, usize::from(frame.offset))?;
    Some((method, instr))
}

/// What an event did, in words.
fn push_deed(
    said: &mut Said,
    names: &ProgramNames<'_>,
    shared: &Shared,
    before: &Before,
    told: Told,
) -> Result<(), AllocError> {
    let (field, sort) = match instr_before(names, before) {
        Some((method, instr)) => (field_of(&method, instr), sort_of(method.file(), instr)),
        None => (None, Sort::Int),
    };
    let words = Words {
        names,
        shared,
        field,
        flags: flags_of(names.linked, field),
        sort,
    };
    words.push(said, before, told)
}

/// What an event did, as members of an object, where there is one.
fn push_members(
    text: &mut Vec<u8>,
    spare: &mut Said,
    names: &ProgramNames<'_>,
    form: Form,
    before: &Before,
    shared: &Shared,
    told: Told,
) -> Result<(), AllocError>
    ensures { OnOk result (AddsMembers form text.old.items text.new.items) }
{
    let Form::Json = form else {
        return Ok(());
    };
    let (monitor, count) = match monitor_of(told.deed) {
        Some(entries) => (Some(entries.object), Some(entries.count)),
        None => (None, None),
    };
    let (object, started) = match started_by(told.deed, shared) {
        Some((object, thread)) => (Some(object), Some(thread)),
        None => (None, None),
    };
    spare.clear();
    names.push_object_if(&mut spare.words, shared, monitor)?;
    let end = spare.words.len();
    names.push_object_if(&mut spare.words, shared, object)?;
    let words = spare.words.as_slice();
    let members = DeedMembers {
        op: word_of(told).as_bytes(),
        monitor: words.get(..end).unwrap_or(b""),
        count,
        printed: printed_since(before, shared),
        started,
        object: words.get(end..).unwrap_or(b""),
    };
    push_deed_members(text, members)
}

/// Writes the line of an event behind a text, by what was seen before it and the state after it: the event's number
/// and its thread, where the thread stood, the source, the instruction, and what it did; in an object of JSON that also
/// in members. What is said of it is gathered in `spare` before.
/// The only error is a want of memory.
pub fn push_line(
    text: &mut Vec<u8>,
    spare: &mut Said,
    names: &ProgramNames<'_>,
    line: Line,
    before: &Before,
    shared: &Shared,
) -> Result<(), AllocError>
    ensures { (stack : _) → Sees names.now.linked.now before.now.frame before.now.class stack
        → OnOk result (AddsLine line.form names.now.linked.now line.number line.event.thread stack text.old.items
        text.new.items) }
{
    push_head(text, line)?;
    push_place(text, names, line.form, before)?;
    spare.clear();
    push_source(&mut spare.words, names, before)?;
    push_part(text, line.form, SOURCE, spare.words.as_slice())?;
    spare.clear();
    push_instruction(&mut spare.words, names, before)?;
    push_part(text, line.form, INSTRUCTION, spare.words.as_slice())?;
    spare.clear();
    let told = told_of(before, shared, names.program, line.event);
    push_deed(spare, names, shared, before, told)?;
    push_did(text, line.form, spare)?;
    push_members(text, spare, names, line.form, before, shared, told)?;
    push_end(text, line.form)
}
