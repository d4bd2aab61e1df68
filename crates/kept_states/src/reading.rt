//! States that are read by the numbers of their parts.

ghost use Rattle.std.specs.Prelude.{◌≡◌, ◌∷◌, IfOk};
ghost use Rattle.word_table.specs.Lists.{StandsFor};
ghost use Rattle.kept_parts.specs.Rows.{flags_row};
ghost use Rattle.kept_states.specs.Rows.{statuses_row};
ghost use Rattle.kept_states.specs.Kept.{IsNumbered};
ghost use Rattle.kept_parts.specs.Heaps.{IsHeapRead};
ghost use Rattle.kept_states.specs.States.{IsSharedRead};

use crate::globals::{Globals, read_globals};
use crate::numbered::Numbered;
use crate::shared_rows::{read_statuses, read_units};
use crate::threads::read_threads;
use heap::Heap;
use kept_parts::heap_rows::read_heap;
use kept_parts::rows::read_flags;
use machine_state::{ClassStatus, Shared};
use std::alloc::{AllocError, Global};
use word_table::WordTable;

/// The row of a number. An error where there is none.
pub(crate) fn part(parts: &WordTable, number: u32) -> Result<&[u32], AllocError>
    ensures { IfOk result (λ row. StandsFor parts.now number row.now) }
{
    match parts.get(number) {
        Some(row) => Ok(row),
        None => Err(AllocError),
    }
}

fn statics_of(alloc: Global, parts: &WordTable, number: u32) -> Result<Vec<u32>, AllocError>
    ensures { IfOk result (λ statics. StandsFor parts.now number statics.items) }
{
    let row = part(parts, number)?;
    let statics = Vec::from_slice(alloc, row)?;
    Ok(statics)
}

fn interned_of(alloc: Global, parts: &WordTable, number: u32) -> Result<Vec<u32>, AllocError>
    ensures { IfOk result (λ interned. StandsFor parts.now number interned.items) }
{
    let row = part(parts, number)?;
    let interned = Vec::from_slice(alloc, row)?;
    Ok(interned)
}

fn statuses_of(
    alloc: Global,
    parts: &WordTable,
    number: u32,
) -> Result<Vec<ClassStatus>, AllocError>
    ensures { IfOk result (λ statuses. StandsFor parts.now number (statuses_row statuses.items)) }
{
    let row = part(parts, number)?;
    let statuses = read_statuses(alloc, row)?;
    Ok(statuses)
}

fn ready_of(alloc: Global, parts: &WordTable, number: u32) -> Result<Vec<bool>, AllocError>
    ensures { IfOk result (λ ready. StandsFor parts.now number (flags_row ready.items)) }
{
    let row = part(parts, number)?;
    let ready = read_flags(alloc, row)?;
    Ok(ready)
}

fn printed_of(alloc: Global, parts: &WordTable, number: u32) -> Result<Vec<u16>, AllocError>
    ensures { IfOk result (λ printed. StandsFor parts.now number printed.items) }
{
    let row = part(parts, number)?;
    let printed = read_units(alloc, row)?;
    Ok(printed)
}

/// The objects of these numbers, of which as many cells count as is kept. The flags say which locks are inflated.
#[tactic(auto, using(crate::proofs::Read::heap_read))]
fn heap_of(
    alloc: Global,
    parts: &WordTable,
    globals: Globals,
    objects: &[u32],
    fat: &[u32],
) -> Result<Heap, AllocError>
    ensures { IfOk result (IsHeapRead parts.now globals.limits globals.opening globals.counted objects.now fat.now) }
{
    let mut heap = read_heap(alloc, parts, globals.limits, globals.opening, objects, fat)?;
    if heap.cell_limit() < globals.counted {
        return Err(AllocError);
    }
    heap.set_counted(globals.counted);
    Ok(heap)
}

/// What threads share, by what is kept beside objects and threads, the numbers of objects and threads, and the flags of
/// inflated locks.
#[tactic(auto, using(crate::proofs::Read::shared_read))]
fn read_shared(
    alloc: Global,
    parts: &WordTable,
    globals: Globals,
    objects: &[u32],
    threads: &[u32],
    fat: &[u32],
) -> Result<Shared, AllocError>
    ensures { IfOk result (IsSharedRead parts.now globals objects.now threads.now fat.now) }
{
    let heap = heap_of(alloc, parts, globals, objects, fat)?;
    let statics = statics_of(alloc, parts, globals.numbers.statics)?;
    let statuses = statuses_of(alloc, parts, globals.numbers.statuses)?;
    let ready = ready_of(alloc, parts, globals.numbers.ready)?;
    let printed = printed_of(alloc, parts, globals.numbers.printed)?;
    let interned = interned_of(alloc, parts, globals.numbers.interned)?;
    let (threads, stacks) = read_threads(alloc, parts, globals.limits.threads, threads)?;
    Ok(Shared {
        heap,
        statics,
        statuses,
        ready,
        threads,
        printed,
        interned,
        unnamed: globals.unnamed,
        stacks,
    })
}

/// A state of this row, with the number of the flags of its inflated locks.
#[tactic(auto, using(crate::proofs::Written::numbered_read))]
pub(crate) fn read_numbered(
    alloc: Global,
    parts: &WordTable,
    row: &[u32],
    fat: u32,
) -> Result<Numbered, AllocError>
    ensures row { IfOk result (λ n. row.now ≡ n.globals ∷ n.heap ∷ n.threads.items) }
    ensures fat { IfOk result (λ n. n.fat ≡ fat) }
    ensures numbered { IfOk result (IsNumbered parts.now) }
{
    let Some((globals_number, rest)) = row.split_first() else {
        return Err(AllocError);
    };
    let Some((heap_number, thread_numbers)) = rest.split_first() else {
        return Err(AllocError);
    };
    let globals = read_globals(part(parts, *globals_number)?)?;
    let objects = part(parts, *heap_number)?;
    let flags = part(parts, fat)?;
    let shared = read_shared(alloc, parts, globals, objects, thread_numbers, flags)?;
    let objects = Vec::from_slice(alloc, objects)?;
    let threads = Vec::from_slice(alloc, thread_numbers)?;
    Ok(Numbered {
        shared,
        globals: *globals_number,
        numbers: globals.numbers,
        heap: *heap_number,
        objects,
        threads,
        fat,
    })
}
