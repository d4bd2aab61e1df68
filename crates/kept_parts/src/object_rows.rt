//! Objects with their monitors, as rows of words.

ghost use Rattle.std.specs.Prelude.{◌≡◌, ◌+◌, ◌<◌, ◌++◌, Some, false, length, slice_get, OnOk};
ghost use Rattle.model.specs.Monitors.{monitor_at, unlocked};
ghost use Rattle.heap.specs.Heap.{Object};
ghost use Rattle.kept_parts.specs.Objects.{object_row, opened, with_kept, IsObjectRead};

use crate::kind_rows::{push_kind, read_kind};
use crate::monitor_rows::{push_monitor, read_monitor};
use crate::reader::Reader;
use crate::rows::push_number;
use heap::{Heap, ObjectKind};
use std::alloc::AllocError;

/// The row of an object: what it is, its words, and its monitor.
pub(crate) fn push_object(row: &mut Vec<u32>, heap: &Heap, object: u32) -> Result<(), AllocError>
    requires there { object < length heap.now.objects }
    requires monitor { object < length heap.now.locks.monitors }
    ensures { OnOk result ((o : Object) → slice_get heap.now.objects object ≡ Some o
        → row.new.items ≡ row.old.items ++ object_row o (monitor_at heap.now.locks.monitors object)) }
{
    let Some(kind) = heap.class_of(object) else {
        unreachable!();
    };
    let words = heap.words(object);
    push_kind(row, kind)?;
    push_number(row, words.len())?;
    row.extend_from_slice(words)?;
    push_monitor(row, heap, object)
}

/// Adds an object to a heap, where it belongs to the opening state with all objects before it, or does not. No cell of
/// the object counts.
#[tactic(auto, using(crate::proofs::Fields::none_counted))]
fn add_object(
    heap: &mut Heap,
    kind: ObjectKind,
    words: &[u32],
    opening: bool,
) -> Result<(), AllocError>
    requires { length words.now < 4294967296 }
    ensures { OnOk result (heap.new ≡ opened opening (length heap.old.objects + 1)
        (with_kept (record { kind = kind; words = words.now }) unlocked false heap.old)) }
{
    if !opening {
        match heap.add_words(kind, words, 0) {
            Ok(()) => Ok(()),
            Err(_) => Err(AllocError),
        }
    } else if heap.len() < heap::MOST_OPENING {
        heap.add_opening_words(kind, words)
    } else {
        Err(AllocError)
    }
}

/// Adds the object of a row to a heap.
pub(crate) fn read_object(
    heap: &mut Heap,
    row: &[u32],
    opening: bool,
    fat: bool,
) -> Result<(), AllocError>
    requires { length heap.old.locks.fat ≡ length heap.old.objects }
    ensures { OnOk result (IsObjectRead opening fat row.now heap.old heap.new) }
{
    let mut reader = Reader::new(row);
    let object = heap.len();
    let kind = read_kind(&mut reader)?;
    let count = reader.next_word()?;
    let words = reader.words(count)?;
    add_object(heap, kind, words, opening)?;
    read_monitor(&mut reader, heap, object, fat)?;
    if reader.is_done() {
        Ok(())
    } else {
        Err(AllocError)
    }
}
