//! Entries of stacks as words.

ghost use Rattle.std.specs.Prelude.{◌≡◌, ◌++◌, OnOk, IfOk};
ghost use Rattle.kept_parts.specs.Stacks.{entry_kind_row, entry_row, entries_row};

use crate::reader::Reader;
use crate::rows::{push, push_number, push_option, push_two, read_option, short_of};
use std::alloc::AllocError;
use thread_stacks::{Entry, EntryKind, Phase};

/// What an entry stands for, in two words.
fn push_entry_kind(row: &mut Vec<u32>, kind: EntryKind) -> Result<(), AllocError>
    ensures { OnOk result (row.new.items ≡ row.old.items ++ entry_kind_row kind) }
{
    match kind {
        EntryKind::Invocation => push_two(row, 0, 0),
        EntryKind::Initialisation {
            class,
            phase: Phase::Super,
        } => push_two(row, 1, u32::from(class)),
        EntryKind::Initialisation {
            class,
            phase: Phase::End,
        } => push_two(row, 2, u32::from(class)),
    }
}

/// What an entry stands for, by the next two words.
fn read_entry_kind(reader: &mut Reader<'_>) -> Result<EntryKind, AllocError>
    ensures { IfOk result (λ kind. reader.old.rest.now ≡ entry_kind_row kind ++ reader.new.rest.now) }
{
    let tag = reader.next_word()?;
    let class = short_of(reader.next_word()?)?;
    match (tag, class) {
        (0, 0) => Ok(EntryKind::Invocation),
        (1, class) => Ok(EntryKind::Initialisation {
            class,
            phase: Phase::Super,
        }),
        (2, class) => Ok(EntryKind::Initialisation {
            class,
            phase: Phase::End,
        }),
        _ => Err(AllocError),
    }
}

fn push_entry(row: &mut Vec<u32>, entry: Entry) -> Result<(), AllocError>
    ensures { OnOk result (row.new.items ≡ row.old.items ++ entry_row entry) }
{
    push_entry_kind(row, entry.kind)?;
    push(row, entry.method)?;
    push_option(row, entry.entered)?;
    push_number(row, entry.place)?;
    push_number(row, entry.locals)?;
    push_number(row, entry.operands)
}

pub(crate) fn read_entry(reader: &mut Reader<'_>) -> Result<Entry, AllocError>
    ensures { IfOk result (λ entry. reader.old.rest.now ≡ entry_row entry ++ reader.new.rest.now) }
{
    let kind = read_entry_kind(reader)?;
    let method = reader.next_word()?;
    let entered = read_option(reader)?;
    let place = reader.next_word()?;
    let locals = reader.next_word()?;
    let operands = reader.next_word()?;
    Ok(Entry {
        kind,
        method,
        entered,
        place: place as usize,
        locals: locals as usize,
        operands: operands as usize,
    })
}

pub(crate) fn push_entries(row: &mut Vec<u32>, entries: &[Entry]) -> Result<(), AllocError>
    ensures { OnOk result (row.new.items ≡ row.old.items ++ entries_row entries.now) }
{
    'entries: for entry in entries {
        push_entry(row, *entry)?;
    }
    Ok(())
}
