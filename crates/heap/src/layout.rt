//! Where the words of objects lie, among the cells of all objects.

ghost use Rattle.std.specs.Prelude.{◌≡◌, ◌+◌, ◌<◌, ◌≤◌, [], ◌∷◌, ◌++◌, OnOk, OnErr, IfSome, IfNone, IsTrue, length};
ghost use Rattle.std.specs.Prelude.{◌^◌, All, drop, map, replicate, slice_get, slice_range, option_map, take};
ghost use Rattle.heap.specs.Heap.{with_lock, words_at, word_at, put_field};
ghost use Rattle.heap.specs.Layout.{AreLaid, IsPlace, start_at, entry_kind, inserted, later, moved, objects_of};

use crate::kind::ObjectKind;
use crate::monitor::Monitors;
use std::alloc::AllocError;
use std::mem::size_of;

/// An object: what it is, and which of the cells is its first. Its others follow, up to the first of the next object.
#[derive(Clone, Copy)]
pub struct Entry {
    pub kind: ObjectKind,
    pub start: usize,
}

/// Where the words of this object begin; behind the last object that is at the end of the cells.
pub fn start(table: &[Entry], cells: &[u32], object: usize) -> usize
    ensures { result ≡ start_at table.now (length cells.now) object }
{
    match table.get(object) {
        Some(entry) => entry.start,
        None => cells.len(),
    }
}

const _: () = prove!(size_of::<Entry>() == 16);

/// What this object is.
pub fn kind(table: &[Entry], object: usize) -> Option<ObjectKind>
    ensures { result ≡ option_map entry_kind (slice_get table.now object) }
{
    match table.get(object) {
        Some(entry) => Some(entry.kind),
        None => None,
    }
}

/// How many words this object has.
pub fn word_count(table: &[Entry], cells: &[u32], object: u32) -> u32
    requires { AreLaid table.now (length cells.now) }
    ensures { result + start_at table.now (length cells.now) object
        ≡ start_at table.now (length cells.now) (object + 1) }
{
    let object = object as usize;
    let next = start(table, cells, object + 1);
    let first = start(table, cells, object);
    (next - first) as u32
}

/// Which cell has the word of this number of the object, if there is that word.
fn place(table: &[Entry], cells: &[u32], object: u32, number: u32) -> Option<usize>
    requires { AreLaid table.now (length cells.now) }
    ensures there { IfSome result (λ place. IsPlace place table.now (length cells.now) object number) }
    ensures not_there { IfNone result (start_at table.now (length cells.now) (object + 1)
        ≤ start_at table.now (length cells.now) object + number) }
{
    let first = start(table, cells, object as usize);
    if number < word_count(table, cells, object) {
        Some(first + number as usize)
    } else {
        None
    }
}

/// The word of this number of the object, or 0.
pub fn word(table: &[Entry], cells: &[u32], object: u32, number: u32) -> u32
    requires { AreLaid table.now (length cells.now) }
    ensures { result ≡ word_at (objects_of table.now cells.now) object number }
{
    match place(table, cells, object, number) {
        Some(place) => cells[place],
        None => 0,
    }
}

/// Writes the word of this number of the object, if there is that word.
pub fn set_word(table: &[Entry], cells: &mut [u32], object: u32, number: u32, word: u32)
    requires { AreLaid table.now (length cells.old) }
    ensures { objects_of table.now cells.new ≡ put_field (objects_of table.now cells.old) object number word }
{
    if let Some(place) = place(table, cells, object, number) {
        cells[place] = word;
    }
}

/// One more object, with so many words that are 0; without memory nothing changes.
pub fn add(
    table: &mut Vec<Entry>,
    cells: &mut Vec<u32>,
    monitors: &mut Monitors,
    kind: ObjectKind,
    count: u32,
) -> Result<(), AllocError>
    ensures entry { OnOk result (table.new.items
        ≡ table.old.items ++ record { kind = kind; start = length cells.old.items } ∷ []) }
    ensures words { OnOk result (cells.new.items ≡ cells.old.items ++ replicate count 0) }
    ensures monitor { OnOk result (monitors.new ≡ with_lock monitors.old) }
    ensures err { OnErr result ((table.new.items ≡ table.old.items) × (cells.new.items ≡ cells.old.items)
        × (monitors.new ≡ monitors.old)) }
{
    let count = count as usize;
    let start = cells.len();
    cells.reserve(count)?;
    table.reserve(1)?;
    monitors.add()?;
    table.push_reserved(Entry { kind, start });
    match cells.resize(start + count, 0) {
        Ok(()) => Ok(()),
        Err(_) => unreachable!(),
    }
}

/// The words of this object; none of one that is not there.
#[inline]
pub fn words<'a>(table: &[Entry], cells: &'a [u32], object: u32) -> &'a [u32]
    requires { AreLaid table.now (length cells.now) }
    ensures { result.now ≡ words_at (objects_of table.now cells.now) object }
{
    let first = start(table, cells, object as usize);
    let next = start(table, cells, object as usize + 1);
    part(cells, first, next)
}

/// The cells from a place up to another.
#[inline]
fn part(cells: &[u32], first: usize, next: usize) -> &[u32]
    requires up { first ≤ next }
    requires within { next ≤ length cells.now }
    ensures { result.now ≡ slice_range cells.now first next }
{
    &cells[first..next]
}

/// One more object, with these words; without memory nothing changes.
pub fn add_words(
    table: &mut Vec<Entry>,
    cells: &mut Vec<u32>,
    monitors: &mut Monitors,
    kind: ObjectKind,
    words: &[u32],
) -> Result<(), AllocError>
    ensures entry { OnOk result (table.new.items
        ≡ table.old.items ++ record { kind = kind; start = length cells.old.items } ∷ []) }
    ensures words { OnOk result (cells.new.items ≡ cells.old.items ++ words.now) }
    ensures monitor { OnOk result (monitors.new ≡ with_lock monitors.old) }
    ensures err { OnErr result ((table.new.items ≡ table.old.items) × (cells.new.items ≡ cells.old.items)
        × (monitors.new ≡ monitors.old)) }
{
    let start = cells.len();
    cells.reserve(words.len())?;
    table.reserve(1)?;
    monitors.add()?;
    table.push_reserved(Entry { kind, start });
    match cells.extend_from_slice(words) {
        Ok(()) => Ok(()),
        Err(_) => unreachable!(),
    }
}

/// Puts words in among the cells, at a place; without memory nothing changes.
fn insert(cells: &mut Vec<u32>, place: usize, words: &[u32]) -> Result<(), AllocError>
    requires { place ≤ length cells.old.items }
    ensures ok { OnOk result (cells.new.items ≡ inserted cells.old.items place words.now) }
    ensures err { OnErr result (cells.new.items ≡ cells.old.items) }
{
    cells.extend_from_slice(words)?;
    cells[place..].rotate_right(words.len());
    Ok(())
}

/// The words of the objects from a place on begin so many cells later.
fn shift(table: &mut [Entry], first: usize, count: usize)
    requires fits { All (λ (entry : Entry). entry.start + count < 2 ^ 64) table.old }
    ensures { table.new ≡ take first table.old ++ map (later count) (drop first table.old) }
{
    let mut place = first;
    'entries: while place < table.len() {
        let entry = table[place];
        table[place] = Entry {
            kind: entry.kind,
            start: entry.start + count,
        };
        place += 1;
    }
}

/// This object, which is there, gets these words behind those that it has; without memory nothing changes.
pub fn extend(
    table: &mut Vec<Entry>,
    cells: &mut Vec<u32>,
    object: u32,
    words: &[u32],
) -> Result<(), AllocError>
    requires laid { AreLaid table.old.items (length cells.old.items) }
    ensures entries { OnOk result (table.new.items ≡ moved table.old.items object (length words.now)) }
    ensures words { OnOk result (cells.new.items ≡ inserted cells.old.items
        (start_at table.old.items (length cells.old.items) (object + 1)) words.now) }
    ensures err { OnErr result ((table.new.items ≡ table.old.items) × (cells.new.items ≡ cells.old.items)) }
{
    let next = object as usize + 1;
    let place = start(table.as_slice(), cells.as_slice(), next);
    insert(cells, place, words)?;
    let _end = cells.len();
    shift(table, next, words.len());
    Ok(())
}

/// Whether these are the same words.
#[inline]
pub fn are_same_words(one: &[u32], other: &[u32]) -> bool
    ensures { IsTrue result → one.now ≡ other.now }
{
    one == other
}

/// Whether these are the same kind.
#[inline]
fn are_same_kinds(one: ObjectKind, other: ObjectKind) -> bool
    ensures { IsTrue result → one ≡ other }
{
    one == other
}

/// Whether an object is the same in two lists of objects, in both of which it is.
#[inline]
pub fn is_same_object(
    table: &[Entry],
    cells: &[u32],
    others: &[Entry],
    other_cells: &[u32],
    object: u32,
) -> bool
    requires one { AreLaid table.now (length cells.now) }
    requires other { AreLaid others.now (length other_cells.now) }
    ensures { IsTrue result → slice_get (objects_of table.now cells.now) object
        ≡ slice_get (objects_of others.now other_cells.now) object }
{
    let place = object as usize;
    match (table.get(place), others.get(place)) {
        (Some(one), Some(other)) => {
            are_same_kinds(one.kind, other.kind)
                && are_same_words(
                    words(table, cells, object),
                    words(others, other_cells, object),
                )
        }
        _ => false,
    }
}
