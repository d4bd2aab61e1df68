//! Heaps as lists of numbers of objects.

ghost use Rattle.std.specs.Prelude.{◌≡◌, ◌+◌, ◌<◌, ◌≤◌, ◌++◌, Some, length, IfSome, IfOk, OnOk};
ghost use Rattle.word_table.specs.Lists.{Grows, IsWritten};
ghost use Rattle.kept_parts.specs.Rows.{flags_row};
ghost use Rattle.kept_parts.specs.Heaps.{AreBefore, AreFirst, AreNumbered, GoOn, IsHeapKept, IsHeapWritten, IsHeapRead};
ghost use Rattle.kept_parts.specs.Heaps.{IsNumberRead};

use crate::object_rows::{push_object, read_object};
use crate::rows::{flag_code, flag_of, push};
use heap::{Heap, are_same_words};
use model::Limits;
use std::alloc::{AllocError, Global};
use word_table::WordTable;

/// A heap with the numbers of its objects, and that of the list of these.
#[derive(Clone, Copy)]
pub struct NumberedHeap<'a> {
    pub heap: &'a Heap,
    pub objects: &'a [u32],
    pub number: u32,
}

/// Writes an object, whose number is put behind those of the objects before it.
fn write_object(
    parts: &mut WordTable,
    row: &mut Vec<u32>,
    numbers: &mut Vec<u32>,
    heap: &Heap,
    object: u32,
) -> Result<(), AllocError>
    requires there { object < length heap.now.objects }
    requires monitors { length heap.now.locks.monitors ≡ length heap.now.objects }
    requires first { AreFirst parts.old numbers.old.items object heap.now }
    ensures { OnOk result (AreNumbered heap.now object (object + 1) numbers.new.items parts.old parts.new) }
{
    row.clear();
    push_object(row, heap, object)?;
    let number = parts.write(row.as_slice())?;
    push(numbers, number)
}

/// Puts the numbers of objects from this one on that are the same in a heap before behind those of the objects before
/// them. Answers how many objects have numbers then.
fn same_numbers(
    numbers: &mut Vec<u32>,
    heap: &Heap,
    object: u32,
    before: NumberedHeap<'_>,
) -> Result<u32, AllocError>
    requires there { object ≤ length heap.now.objects }
    requires monitors { length heap.now.locks.monitors ≡ length heap.now.objects }
    ensures { IfOk result (λ until.
        GoOn heap.now (Some before.entry) object until numbers.old.items numbers.new.items) }
{
    let until = heap.same_until(before.heap, object);
    let mut at = object;
    'same: while at < until {
        match before.objects.get(at as usize) {
            Some(number) => push(numbers, *number)?,
            None => return Ok(at),
        }
        at += 1;
    }
    Ok(at)
}

/// The same, if there is a heap before.
fn numbers_before(
    numbers: &mut Vec<u32>,
    heap: &Heap,
    object: u32,
    before: Option<NumberedHeap<'_>>,
) -> Result<u32, AllocError>
    requires there { object ≤ length heap.now.objects }
    requires monitors { length heap.now.locks.monitors ≡ length heap.now.objects }
    ensures { IfOk result (λ until. GoOn heap.now before.entry object until numbers.old.items numbers.new.items) }
{
    match before {
        Some(before) => same_numbers(numbers, heap, object, before),
        None => Ok(object),
    }
}

/// Puts the number of an object, or those of several from it on, behind those of the objects before it. Answers how
/// many objects have numbers then.
fn next_numbers(
    parts: &mut WordTable,
    row: &mut Vec<u32>,
    numbers: &mut Vec<u32>,
    heap: &Heap,
    object: u32,
    before: Option<NumberedHeap<'_>>,
) -> Result<u32, AllocError>
    requires next { object < 4294967295 }
    requires there { object < length heap.now.objects }
    requires before { IfSome before (AreBefore parts.old) }
    requires monitors { length heap.now.locks.monitors ≡ length heap.now.objects }
    requires first { AreFirst parts.old numbers.old.items object heap.now }
    ensures { IfOk result (λ until. AreNumbered heap.now object until numbers.new.items parts.old parts.new) }
{
    let until = numbers_before(numbers, heap, object, before)?;
    if object < until {
        return Ok(until);
    }
    write_object(parts, row, numbers, heap, object)?;
    Ok(object + 1)
}

/// The numbers of all objects.
fn all_numbers(
    parts: &mut WordTable,
    row: &mut Vec<u32>,
    numbers: &mut Vec<u32>,
    heap: &Heap,
    before: Option<NumberedHeap<'_>>,
) -> Result<(), AllocError>
    requires { IfSome before (AreBefore parts.old) }
    ensures grows { OnOk result (Grows parts.old parts.new) }
    ensures numbers { OnOk result (IsHeapKept parts.new numbers.new.items heap.now) }
    ensures before { OnOk result (IfSome before.entry (AreBefore parts.new)) }
{
    numbers.clear();
    let count = heap.len();
    let mut object = 0;
    'objects: while object < count {
        object = next_numbers(parts, row, numbers, heap, object, before)?;
    }
    Ok(())
}

/// The number of a list of numbers.
fn list_number(
    parts: &mut WordTable,
    numbers: &[u32],
    before: Option<NumberedHeap<'_>>,
) -> Result<u32, AllocError>
    requires { IfSome before (AreBefore parts.old) }
    ensures { IfOk result (λ number. IsWritten numbers.now number parts.old parts.new) }
{
    if let Some(before) = before {
        if are_same_words(before.objects, numbers) {
            return Ok(before.number);
        }
    }
    parts.write(numbers)
}

/// The number of the list of the numbers of all objects, which is left there.
pub fn heap_number(
    parts: &mut WordTable,
    row: &mut Vec<u32>,
    numbers: &mut Vec<u32>,
    heap: &Heap,
    before: Option<NumberedHeap<'_>>,
) -> Result<u32, AllocError>
    requires { IfSome before (AreBefore parts.old) }
    ensures { IfOk result (λ number. IsHeapWritten heap.now number numbers.new.items parts.old parts.new) }
{
    all_numbers(parts, row, numbers, heap, before)?;
    list_number(parts, numbers.as_slice(), before)
}

/// Puts the flags of locks that are inflated behind other words.
fn push_fat(row: &mut Vec<u32>, heap: &Heap) -> Result<(), AllocError>
    requires { length heap.now.locks.fat ≡ length heap.now.objects }
    ensures { OnOk result (row.new.items ≡ row.old.items ++ flags_row heap.now.locks.fat) }
{
    'objects: for object in 0..heap.len() {
        push(row, flag_code(heap.is_fat(object)))?;
    }
    Ok(())
}

/// The number of the flags of locks that are inflated.
pub fn fat_number(parts: &mut WordTable, row: &mut Vec<u32>, heap: &Heap) -> Result<u32, AllocError>
    requires { length heap.now.locks.fat ≡ length heap.now.objects }
    ensures { IfOk result (λ number. IsWritten (flags_row heap.now.locks.fat) number parts.old parts.new) }
{
    row.clear();
    push_fat(row, heap)?;
    parts.write(row.as_slice())
}

/// Adds the object of a number to a heap.
fn read_numbered(
    heap: &mut Heap,
    parts: &WordTable,
    number: u32,
    opening: bool,
    fat: u32,
) -> Result<(), AllocError>
    requires { length heap.old.locks.fat ≡ length heap.old.objects }
    ensures { OnOk result (IsNumberRead parts.now number opening fat heap.old heap.new) }
{
    match parts.get(number) {
        Some(row) => read_object(heap, row, opening, flag_of(fat)?),
        None => Err(AllocError),
    }
}

/// A heap of the objects of these numbers, so many of which belong to the opening state. The flags say which locks are
/// inflated. No cell of the objects counts.
pub fn read_heap(
    alloc: Global,
    parts: &WordTable,
    limits: Limits,
    opening: u32,
    numbers: &[u32],
    fat: &[u32],
) -> Result<Heap, AllocError>
    ensures { IfOk result (IsHeapRead parts.now limits opening 0 numbers.now fat.now) }
{
    if fat.len() != numbers.len() || numbers.len() < opening as usize {
        return Err(AllocError);
    }
    let mut heap = Heap::new(alloc, limits);
    'numbers: for place in 0..numbers.len() {
        if place < opening as usize {
            read_numbered(&mut heap, parts, numbers[place], true, fat[place])?;
        } else {
            read_numbered(&mut heap, parts, numbers[place], false, fat[place])?;
        }
    }
    Ok(heap)
}
