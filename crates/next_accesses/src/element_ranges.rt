//! Which elements of an array a method of String without code, or `clone`, reads or writes (JLS 17.4.1).
//!
//! # Proved
//!
//! - `chars_accessed`: by the words of a frame, the elements from which `new String(char[], int, int)` takes its text,
//!   and those to which `getChars` gives units; none where it throws (`chars_accessed` of the specs).
//! - `push_elements`: each element of a range once, from the first one on (`range_actions`).
//!
//! # Not proved
//!
//! - That the instruction of the frame runs the method is for whoever calls; that these are the accesses of the
//!   definitions, too.
//!
//! # Wrong bodies
//!
//! - `element_ranges-whole-array-is-read`: a constructor reads elements outside its part; refused by `chars_read`.
//! - `element_ranges-first-element-alone`: one element of a range is told; refused by `push_elements`.
//! - `element_ranges-get-chars-reads`: `getChars` is told as reads; refused by `chars_written`.
//! - `element_ranges-units-from-the-front`: `getChars` writes as many elements as the text has units up to the end;
//!   refused by `chars_written`.

ghost use Rattle.std.specs.Prelude.{◌≡◌, ◌++◌, OnOk, option_map, slice_get};
ghost use Rattle.thread_stacks.specs.Stacks.{shown_frame};
ghost use Rattle.machine_instructions.specs.thread_methods.Texts.{text_in};
ghost use Rattle.machine_instructions.specs.thread_methods.TextWrites.{elements_in};
ghost use Rattle.next_accesses.specs.element_ranges.Ranges.{element_action, range_actions};
ghost use Rattle.next_accesses.specs.element_ranges.Ranges as ranges;

use crate::accesses::object_at;
use heap::{Heap, ObjectKind};
use model::TextMethod;
use model::built_in::STRING;
use race_places::run_actions::{Action, Variable};
use std::alloc::AllocError;
use string_methods::{has_bounds, has_part, has_room};
use thread_stacks::Frame;

/// The elements of an array from an index up to another one, which are all written or all read.
#[derive(Clone, Copy, PartialEq, Eq)]
pub(crate) struct ElementRange {
    pub(crate) array: u32,
    pub(crate) first: u32,
    /// Behind the last one.
    pub(crate) end: u32,
    pub(crate) is_written: bool,
}

/// The elements of an array, each a word; none of an object that is no array.
fn elements(heap: &Heap, array: u32) -> &[u32]
    ensures { result.now ≡ elements_in (slice_get heap.now.objects array) }
{
    match heap.class_of(array) {
        Some(ObjectKind::Instance { .. }) => &[],
        _ => heap.words(array),
    }
}

/// The units of a String, each a word; nothing of another object.
fn units(heap: &Heap, object: u32) -> Option<&[u32]>
    ensures { option_map (λ u. u.now) result ≡ text_in (slice_get heap.now.objects object) }
{
    match heap.class_of(object) {
        Some(ObjectKind::Instance { class }) => {
            if class == STRING as u32 {
                Some(heap.words(object))
            } else {
                None
            }
        }
        _ => None,
    }
}

/// The units of the String to which the operand under so many others refers; nothing of null, and of another object.
fn text<'a>(heap: &'a Heap, frame: &Frame<'_>, under: usize) -> Option<&'a [u32]>
    ensures { option_map (λ u. u.now) result ≡ ranges.text_under heap.now.objects (shown_frame frame.now).operands
        under }
{
    match object_at(frame, under) {
        Some(object) => units(heap, object),
        None => None,
    }
}

/// The elements that `new String(char[], int, int)` reads, unless it throws.
fn chars_read(heap: &Heap, frame: &Frame<'_>) -> Option<ElementRange>
    ensures { result ≡ ranges.chars_read heap.now.objects (shown_frame frame.now).operands }
{
    let Some(array) = object_at(frame, 2) else {
        return None;
    };
    let offset = frame.operand(1);
    let count = frame.operand(0);
    if !has_part(elements(heap, array), offset, count) {
        return None;
    }
    Some(ElementRange {
        array,
        first: offset,
        end: offset + count,
        is_written: false,
    })
}

/// The elements that `getChars` writes, unless it throws.
fn chars_written(heap: &Heap, frame: &Frame<'_>) -> Option<ElementRange>
    ensures { result ≡ ranges.chars_written heap.now.objects (shown_frame frame.now).operands }
{
    let Some(text) = text(heap, frame, 4) else {
        return None;
    };
    let Some(array) = object_at(frame, 1) else {
        return None;
    };
    let begin = frame.operand(3);
    let end = frame.operand(2);
    let index = frame.operand(0);
    if !has_bounds(text, begin, end) {
        return None;
    }
    let count = end - begin;
    if !has_room(elements(heap, array), index, count) {
        return None;
    }
    Some(ElementRange {
        array,
        first: index,
        end: index + count,
        is_written: true,
    })
}

/// The elements that a method of String reads or writes, by the operands of its call, if it does any.
pub(crate) fn chars_accessed(
    heap: &Heap,
    frame: &Frame<'_>,
    method: TextMethod,
) -> Option<ElementRange>
    ensures { result ≡ ranges.chars_accessed heap.now.objects (shown_frame frame.now).operands method }
{
    match method {
        TextMethod::ConstructOfChars => chars_read(heap, frame),
        TextMethod::GetChars => chars_written(heap, frame),
        TextMethod::ConstructEmpty | TextMethod::ConstructOfString | TextMethod::Intern => None,
    }
}

/// The access of the element at an index.
fn element_access(range: ElementRange, index: u32) -> Action
    ensures { result ≡ element_action range index }
{
    let variable = Variable::Element {
        array: range.array,
        index,
    };
    if range.is_written {
        Action::Write {
            variable,
            is_volatile: false,
        }
    } else {
        Action::Read {
            variable,
            is_volatile: false,
        }
    }
}

/// Puts the accesses of the elements of a range behind others. The only error is a want of memory.
pub(crate) fn push_elements(found: &mut Vec<Action>, range: ElementRange) -> Result<(), AllocError>
    ensures { OnOk result (found.new.items ≡ found.old.items ++ range_actions range) }
{
    'elements: for index in range.first..range.end {
        found.push(element_access(range, index))?;
    }
    Ok(())
}
