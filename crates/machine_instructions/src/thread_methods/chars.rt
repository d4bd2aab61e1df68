//! Arrays of chars, as the methods of String read and write them.

ghost use Rattle.std.specs.Prelude.{◌≡◌, ◌+◌, ◌<◌, ◌≤◌, option_map, length, take, drop, slice_get};
ghost use Rattle.heap.specs.Heap.{words_at};
ghost use Rattle.machine_instructions.specs.thread_methods.TextWrites.{elements_by, with_units};

use heap::{Heap, ObjectKind};

/// The elements of the array to which a word refers, each a word; none of an object that is no array, and nothing of
/// null.
pub(crate) fn elements(heap: &Heap, word: u32) -> Option<&[u32]>
    ensures { option_map (λ u. u.now) result ≡ elements_by heap.now.objects word }
{
    if word == 0 {
        return None;
    }
    match heap.class_of(word - 1) {
        Some(ObjectKind::Instance { .. }) => Some(&[]),
        _ => Some(heap.words(word - 1)),
    }
}

/// So many units of a String, from one on, become elements of an array, which is another object, from an index on.
pub(crate) fn put_units(
    heap: &mut Heap,
    string: u32,
    begin: u32,
    array: u32,
    index: u32,
    count: u32,
)
    requires apart { 0 < count → string ≡ array → ⊥ }
    requires text { begin + count ≤ length (words_at heap.old.objects string) }
    requires part { begin + count < 4294967296 }
    requires room { index + count < 4294967296 }
    ensures { heap.new ≡ record heap.old {
      objects = with_units heap.old.objects array index
          (take count (drop begin (words_at heap.old.objects string)));
    } }
{
    'units: for done in 0..count {
        let unit = heap.get_field(string, begin + done);
        heap.put_field(array, index + done, unit);
    }
}
