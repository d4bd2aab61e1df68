//! Writing places, and a text with places.

ghost use Rattle.std.specs.Prelude.{◌≡◌, ◌++◌, IfOk, OnOk, decimal};
ghost use Rattle.schedule.specs.schedule_text.Text.{entry_word, unless_usual};
ghost use Rattle.place_texts.specs.Places.{Until, deed_of, place_of};
ghost use Rattle.place_texts.specs.Printing.{deed_lines, deed_word};
ghost use Rattle.place_texts.specs.Texts.{place_words, position_words};

use crate::place::{Deed, Place, Position};
use model::{Event, ScheduleEntry};
use std::alloc::{AllocError, Global};

/// Writes a position behind a text: `:25` or `+25`.
fn push_position(alloc: Global, text: &mut Vec<u8>, position: Position) -> Result<(), AllocError>
    ensures { OnOk result (text.new.items ≡ text.old.items ++ position_words position) }
{
    let words = match position {
        Position::Line(line) => format!(in alloc; ":{line}")?,
        Position::Offset(offset) => format!(in alloc; "+{offset}")?,
    };
    text.extend_from_slice(words.as_bytes())?;
    Ok(())
}

/// A place as it stands in a text, behind the `@`. The only error is a want of memory.
pub fn place_text(alloc: Global, place: &Place) -> Result<Vec<u8>, AllocError>
    ensures { IfOk result (λ text. text.items ≡ place_words (place_of place.now)) }
{
    let mut text = Vec::from_slice(alloc, &place.class)?;
    text.push(b'.')?;
    text.extend_from_slice(&place.method)?;
    if let Some(descriptor) = &place.descriptor {
        text.extend_from_slice(descriptor)?;
    }
    push_position(alloc, &mut text, place.position)?;
    Ok(text)
}

/// Writes the pick of an event, unless it is 0.
fn push_pick(alloc: Global, text: &mut Vec<u8>, pick: u16) -> Result<(), AllocError>
    ensures { OnOk result (text.new.items ≡ text.old.items ++ unless_usual 0 46 pick) }
{
    if pick == 0 {
        return Ok(());
    }
    let word = format!(in alloc; ".{pick}")?;
    text.extend_from_slice(word.as_bytes())?;
    Ok(())
}

/// Writes how many events an entry stands for, unless it is one.
fn push_repeat(alloc: Global, text: &mut Vec<u8>, repeat: u32) -> Result<(), AllocError>
    ensures { OnOk result (text.new.items ≡ text.old.items ++ unless_usual 1 42 repeat) }
{
    if repeat == 1 {
        return Ok(());
    }
    let word = format!(in alloc; "*{repeat}")?;
    text.extend_from_slice(word.as_bytes())?;
    Ok(())
}

/// Writes the word of an entry: `THREAD`, `THREAD.PICK` or `THREAD*REPEAT`.
fn push_entry(alloc: Global, text: &mut Vec<u8>, entry: ScheduleEntry) -> Result<(), AllocError>
    ensures { OnOk result (text.new.items ≡ text.old.items ++ entry_word entry) }
{
    let Event { thread, pick } = entry.event;
    let word = format!(in alloc; "{thread}")?;
    text.extend_from_slice(word.as_bytes())?;
    push_pick(alloc, text, pick)?;
    push_repeat(alloc, text, entry.repeat)
}

/// Writes the word of a place, behind that of its thread.
fn push_until(
    alloc: Global,
    text: &mut Vec<u8>,
    thread: u16,
    place: &Place,
) -> Result<(), AllocError>
    ensures { OnOk result (text.new.items ≡ text.old.items ++ deed_word (Until thread (place_of place.now))) }
{
    let head = format!(in alloc; "{thread}@")?;
    text.extend_from_slice(head.as_bytes())?;
    let words = place_text(alloc, place)?;
    text.extend_from_slice(words.as_slice())?;
    Ok(())
}

/// Writes the word of what it stands for.
fn push_deed(alloc: Global, text: &mut Vec<u8>, deed: &Deed) -> Result<(), AllocError>
    ensures { OnOk result (text.new.items ≡ text.old.items ++ deed_word (deed_of deed.now)) }
{
    match deed {
        Deed::Entry(entry) => push_entry(alloc, text, *entry),
        Deed::Until(thread, place) => push_until(alloc, text, *thread, place),
    }
}

/// The text of words, one in a line. The only error is a want of memory.
pub fn print_deeds(alloc: Global, deeds: &[Deed]) -> Result<Vec<u8>, AllocError>
    ensures { IfOk result (λ text. text.items ≡ deed_lines deeds.now) }
{
    let mut text = Vec::new(alloc);
    'deeds: for deed in deeds {
        push_deed(alloc, &mut text, deed)?;
        text.push(b'\n')?;
    }
    Ok(text)
}
