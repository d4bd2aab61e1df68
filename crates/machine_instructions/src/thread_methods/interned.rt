//! The Strings that stand for a text: constants, and then those that were interned.

ghost use Rattle.std.specs.Prelude.{◌≡◌, ◌+◌};
ghost use Rattle.machine_instructions.specs.thread_methods.TextWrites.{first_of, first_among, standing_in, string_if};

use crate::thread_methods::texts::units;
use heap::Heap;
use linked_code::LinkedProgram;
use model::built_in::FIRST_CLASS_OBJECT;
use string_methods::is_same_text;

/// An object, where it is a String of a text.
fn string_of(heap: &Heap, text: &[u32], object: u32) -> Option<u32>
    ensures { result ≡ string_if heap.now.objects text.now object }
{
    if is_same_text(text, units(heap, object)) {
        Some(object)
    } else {
        None
    }
}

/// The object so many behind another, where it is a String of a text.
fn string_behind(heap: &Heap, text: &[u32], first: usize, place: usize) -> Option<u32>
    ensures { result ≡ string_if heap.now.objects text.now (first + place) }
{
    let object = first.saturating_add(place);
    if object >= heap.len() as usize {
        return None;
    }
    string_of(heap, text, object as u32)
}

/// The first of so many objects, from one on, that is a String of a text.
fn first_of(heap: &Heap, text: &[u32], first: usize, count: usize) -> Option<u32>
    ensures { result ≡ first_of heap.now.objects text.now first count }
{
    'strings: for place in 0..count {
        if let Some(string) = string_behind(heap, text, first, place) {
            return Some(string);
        }
    }
    None
}

/// The first of these objects that is a String of a text.
fn first_among(heap: &Heap, text: &[u32], strings: &[u32]) -> Option<u32>
    ensures { result ≡ first_among heap.now.objects text.now strings.now }
{
    'strings: for string in strings {
        if let Some(found) = string_of(heap, text, *string) {
            return Some(found);
        }
    }
    None
}

/// The String that stands for a text.
pub(crate) fn standing_for(
    heap: &Heap,
    program: &LinkedProgram,
    interned: &[u32],
    text: &[u32],
) -> Option<u32>
    ensures { result ≡ standing_in program.now heap.now.objects interned.now text.now }
{
    let first = FIRST_CLASS_OBJECT as usize + program.classes.len();
    match first_of(heap, text, first, program.texts.len()) {
        Some(string) => Some(string),
        None => first_among(heap, text, interned),
    }
}
