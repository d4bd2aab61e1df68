//! What a state keeps beside objects and threads.

ghost use Rattle.std.specs.Prelude.{◌≡◌, [], ◌∷◌, ◌++◌, IfSome, IfOk, OnOk, IsTrue};
ghost use Rattle.word_table.specs.Lists.{IsWritten};
ghost use Rattle.kept_parts.specs.Rows.{flags_row};
ghost use Rattle.kept_states.specs.Rows.{statuses_row};
ghost use Rattle.kept_states.specs.States.{globals_row, AreGlobalsWritten, AreNumbersWritten};
ghost use Rattle.kept_states.specs.Kept.{IsNumbered};

use crate::numbered::{GlobalNumbers, Numbered};
use crate::shared_rows::{
    are_same_flags, are_same_statuses, are_same_units, are_same_words, push_statuses, push_units,
};
use kept_parts::reader::Reader;
use kept_parts::rows::{push, push_flags};
use machine_state::Shared;
use model::Limits;
use std::alloc::AllocError;
use word_table::WordTable;

/// What a state keeps beside objects and threads, by numbers.
#[derive(Clone, Copy)]
pub struct Globals {
    pub limits: Limits,
    pub opening: u32,
    pub counted: u32,
    pub numbers: GlobalNumbers,
    pub unnamed: u32,
}

/// The numbers of the next words.
fn read_numbers(reader: &mut Reader<'_>) -> Result<GlobalNumbers, AllocError>
    ensures { IfOk result (λ n. reader.old.rest.now
        ≡ n.statics ∷ n.statuses ∷ n.ready ∷ n.printed ∷ n.interned ∷ reader.new.rest.now) }
{
    let statics = reader.next_word()?;
    let statuses = reader.next_word()?;
    let ready = reader.next_word()?;
    let printed = reader.next_word()?;
    let interned = reader.next_word()?;
    Ok(GlobalNumbers {
        statics,
        statuses,
        ready,
        printed,
        interned,
    })
}

/// The limits of the next words. The limit on frames is no part of a state.
fn read_limits(reader: &mut Reader<'_>) -> Result<Limits, AllocError>
    ensures { IfOk result (λ l. reader.old.rest.now
        ≡ l.objects ∷ l.cells ∷ l.monitors ∷ l.threads ∷ reader.new.rest.now) }
{
    let objects = reader.next_word()?;
    let cells = reader.next_word()?;
    let monitors = reader.next_word()?;
    let threads = reader.next_word()?;
    match Limits::new(objects, cells, monitors, threads, 1) {
        Some(limits) => Ok(limits),
        None => Err(AllocError),
    }
}

pub(crate) fn read_globals(row: &[u32]) -> Result<Globals, AllocError>
    ensures { IfOk result (λ g. row.now ≡ g.opening ∷ g.counted ∷ g.limits.objects ∷ g.limits.cells
        ∷ g.limits.monitors ∷ g.limits.threads
        ∷ g.numbers.statics ∷ g.numbers.statuses ∷ g.numbers.ready ∷ g.numbers.printed
        ∷ g.numbers.interned ∷ g.unnamed ∷ []) }
{
    let mut reader = Reader::new(row);
    let opening = reader.next_word()?;
    let counted = reader.next_word()?;
    let limits = read_limits(&mut reader)?;
    let numbers = read_numbers(&mut reader)?;
    let unnamed = reader.next_word()?;
    if reader.is_done() {
        Ok(Globals {
            limits,
            opening,
            counted,
            numbers,
            unnamed,
        })
    } else {
        Err(AllocError)
    }
}

#[tactic(auto, using(crate::proofs::Written::statics_same))]
fn statics_number(
    parts: &mut WordTable,
    shared: &Shared,
    before: Option<&Numbered>,
) -> Result<u32, AllocError>
    requires { IfSome before (λ b. IsNumbered parts.old b.now) }
    ensures { IfOk result (λ number. IsWritten shared.now.statics.items number parts.old parts.new) }
{
    if let Some(before) = before {
        if are_same_words(before.shared.statics.as_slice(), shared.statics.as_slice()) {
            return Ok(before.numbers.statics);
        }
    }
    parts.write(shared.statics.as_slice())
}

#[tactic(auto, using(crate::proofs::Written::statuses_same))]
fn statuses_number(
    parts: &mut WordTable,
    row: &mut Vec<u32>,
    shared: &Shared,
    before: Option<&Numbered>,
) -> Result<u32, AllocError>
    requires { IfSome before (λ b. IsNumbered parts.old b.now) }
    ensures { IfOk result (λ number. IsWritten (statuses_row shared.now.statuses.items) number parts.old parts.new) }
{
    if let Some(before) = before {
        if are_same_statuses(
            before.shared.statuses.as_slice(),
            shared.statuses.as_slice(),
        ) {
            return Ok(before.numbers.statuses);
        }
    }
    row.clear();
    push_statuses(row, shared.statuses.as_slice())?;
    parts.write(row.as_slice())
}

#[tactic(auto, using(crate::proofs::Written::ready_same))]
fn ready_number(
    parts: &mut WordTable,
    row: &mut Vec<u32>,
    shared: &Shared,
    before: Option<&Numbered>,
) -> Result<u32, AllocError>
    requires { IfSome before (λ b. IsNumbered parts.old b.now) }
    ensures { IfOk result (λ number. IsWritten (flags_row shared.now.ready.items) number parts.old parts.new) }
{
    if let Some(before) = before {
        if are_same_flags(before.shared.ready.as_slice(), shared.ready.as_slice()) {
            return Ok(before.numbers.ready);
        }
    }
    row.clear();
    push_flags(row, shared.ready.as_slice())?;
    parts.write(row.as_slice())
}

#[tactic(auto, using(crate::proofs::Written::printed_same))]
fn printed_number(
    parts: &mut WordTable,
    row: &mut Vec<u32>,
    shared: &Shared,
    before: Option<&Numbered>,
) -> Result<u32, AllocError>
    requires { IfSome before (λ b. IsNumbered parts.old b.now) }
    ensures { IfOk result (λ number. IsWritten shared.now.printed.items number parts.old parts.new) }
{
    if let Some(before) = before {
        if are_same_units(before.shared.printed.as_slice(), shared.printed.as_slice()) {
            return Ok(before.numbers.printed);
        }
    }
    row.clear();
    push_units(row, shared.printed.as_slice())?;
    parts.write(row.as_slice())
}

#[tactic(auto, using(crate::proofs::Written::interned_same))]
fn interned_number(
    parts: &mut WordTable,
    shared: &Shared,
    before: Option<&Numbered>,
) -> Result<u32, AllocError>
    requires { IfSome before (λ b. IsNumbered parts.old b.now) }
    ensures { IfOk result (λ number. IsWritten shared.now.interned.items number parts.old parts.new) }
{
    if let Some(before) = before {
        if are_same_words(
            before.shared.interned.as_slice(),
            shared.interned.as_slice(),
        ) {
            return Ok(before.numbers.interned);
        }
    }
    parts.write(shared.interned.as_slice())
}

/// The numbers of what a state keeps beside objects and threads.
#[tactic(auto, using(crate::proofs::Written::all_written))]
fn numbers_of(
    parts: &mut WordTable,
    row: &mut Vec<u32>,
    shared: &Shared,
    before: Option<&Numbered>,
) -> Result<GlobalNumbers, AllocError>
    requires { IfSome before (λ b. IsNumbered parts.old b.now) }
    ensures { IfOk result (λ numbers. AreNumbersWritten shared.now numbers parts.old parts.new) }
{
    let statics = statics_number(parts, shared, before)?;
    let statuses = statuses_number(parts, row, shared, before)?;
    let ready = ready_number(parts, row, shared, before)?;
    let printed = printed_number(parts, row, shared, before)?;
    let interned = interned_number(parts, shared, before)?;
    Ok(GlobalNumbers {
        statics,
        statuses,
        ready,
        printed,
        interned,
    })
}

fn are_same_limits(shared: &Shared, before: &Shared) -> bool
    ensures heap { IsTrue result → (before.now.heap.opening ≡ shared.now.heap.opening)
        × (before.now.heap.object_limit ≡ shared.now.heap.object_limit)
        × (before.now.heap.cell_limit ≡ shared.now.heap.cell_limit)
        × (before.now.heap.locks.limit ≡ shared.now.heap.locks.limit) }
    ensures threads { IsTrue result → before.now.threads.limit ≡ shared.now.threads.limit }
{
    before.heap.opening() == shared.heap.opening()
        && before.heap.object_limit() == shared.heap.object_limit()
        && before.heap.cell_limit() == shared.heap.cell_limit()
        && before.heap.monitor_limit() == shared.heap.monitor_limit()
        && before.threads.limit() == shared.threads.limit()
}

/// Whether these are the numbers of a state before, and so are the limits and the count of cells. Then so is the row.
fn are_globals_before(shared: &Shared, numbers: GlobalNumbers, before: &Numbered) -> bool
    ensures { IsTrue result → globals_row before.now.shared before.now.numbers ≡ globals_row shared.now numbers }
{
    numbers.statics == before.numbers.statics
        && numbers.statuses == before.numbers.statuses
        && numbers.ready == before.numbers.ready
        && numbers.printed == before.numbers.printed
        && numbers.interned == before.numbers.interned
        && shared.unnamed == before.shared.unnamed
        && shared.heap.counted() == before.shared.heap.counted()
        && are_same_limits(shared, &before.shared)
}

/// The limits of a state.
fn push_limits(row: &mut Vec<u32>, shared: &Shared) -> Result<(), AllocError>
    ensures { OnOk result (row.new.items ≡ row.old.items
        ++ (shared.now.heap.object_limit ∷ shared.now.heap.cell_limit ∷ shared.now.heap.locks.limit
        ∷ shared.now.threads.limit ∷ [])) }
{
    push(row, shared.heap.object_limit())?;
    push(row, shared.heap.cell_limit())?;
    push(row, shared.heap.monitor_limit())?;
    push(row, shared.threads.limit())
}

/// The numbers of the rows of a state.
fn push_numbers(row: &mut Vec<u32>, numbers: GlobalNumbers) -> Result<(), AllocError>
    ensures { OnOk result (row.new.items ≡ row.old.items
        ++ (numbers.statics ∷ numbers.statuses ∷ numbers.ready ∷ numbers.printed ∷ numbers.interned ∷ [])) }
{
    push(row, numbers.statics)?;
    push(row, numbers.statuses)?;
    push(row, numbers.ready)?;
    push(row, numbers.printed)?;
    push(row, numbers.interned)
}

/// The row of what a state keeps beside objects and threads.
fn push_globals(
    row: &mut Vec<u32>,
    shared: &Shared,
    numbers: GlobalNumbers,
) -> Result<(), AllocError>
    ensures { OnOk result (row.new.items ≡ row.old.items ++ globals_row shared.now numbers) }
{
    push(row, shared.heap.opening())?;
    push(row, shared.heap.counted())?;
    push_limits(row, shared)?;
    push_numbers(row, numbers)?;
    push(row, shared.unnamed)
}

/// The number of the row of these numbers.
#[tactic(auto, using(crate::proofs::Written::globals_same))]
fn row_number(
    parts: &mut WordTable,
    row: &mut Vec<u32>,
    shared: &Shared,
    numbers: GlobalNumbers,
    before: Option<&Numbered>,
) -> Result<u32, AllocError>
    requires { IfSome before (λ b. IsNumbered parts.old b.now) }
    ensures { IfOk result (λ number. IsWritten (globals_row shared.now numbers) number parts.old parts.new) }
{
    if let Some(before) = before {
        if are_globals_before(shared, numbers, before) {
            return Ok(before.globals);
        }
    }
    row.clear();
    push_globals(row, shared, numbers)?;
    parts.write(row.as_slice())
}

/// The number of what a state keeps beside objects and threads.
pub(crate) fn globals_number(
    parts: &mut WordTable,
    row: &mut Vec<u32>,
    shared: &Shared,
    before: Option<&Numbered>,
) -> Result<u32, AllocError>
    requires { IfSome before (λ b. IsNumbered parts.old b.now) }
    ensures { IfOk result (λ number. AreGlobalsWritten shared.now number parts.old parts.new) }
{
    let numbers = numbers_of(parts, row, shared, before)?;
    row_number(parts, row, shared, numbers, before)
}
