//! Stacks as rows of words.

ghost use Rattle.std.specs.Prelude.{◌≡◌, ◌++◌, length, OnOk, IfOk};
ghost use Rattle.kept_parts.specs.Stacks.{entries_row, IsStackRow, IsStackPushed};

use crate::entry_rows::{push_entries, read_entry};
use crate::reader::Reader;
use crate::rows::push_number;
use std::alloc::{AllocError, Global};
use thread_stacks::{Entry, ThreadStack};

/// The row of a stack: how many entries it has, the entries, and the words in use.
pub(crate) fn push_stack(row: &mut Vec<u32>, stack: &ThreadStack) -> Result<(), AllocError>
    ensures { OnOk result (IsStackPushed row.old.items row.new.items stack.now) }
{
    push_number(row, stack.entries.len())?;
    push_entries(row, stack.entries.as_slice())?;
    row.extend_from_slice(&stack.words[..stack.used])?;
    Ok(())
}

/// So many entries, by the next words.
fn read_entries(
    alloc: Global,
    reader: &mut Reader<'_>,
    count: u32,
) -> Result<Vec<Entry>, AllocError>
    ensures many { IfOk result (λ entries. length entries.items ≡ count) }
    ensures row { IfOk result (λ entries. reader.old.rest.now ≡ entries_row entries.items ++ reader.new.rest.now) }
{
    let mut entries = Vec::new(alloc);
    'entries: for _read in 0..count {
        entries.push(read_entry(reader)?)?;
    }
    Ok(entries)
}

/// The stack of words.
pub(crate) fn read_stack(alloc: Global, reader: &mut Reader<'_>) -> Result<ThreadStack, AllocError>
    ensures { IfOk result (IsStackRow reader.old.rest.now) }
{
    let count = reader.next_word()?;
    let entries = read_entries(alloc, reader, count)?;
    let words = Vec::from_slice(alloc, reader.all())?;
    match ThreadStack::of_parts(entries, words) {
        Some(stack) => Ok(stack),
        None => Err(AllocError),
    }
}
