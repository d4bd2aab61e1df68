//! Reading entries, of which each is a word.

ghost use Rattle.std.specs.Prelude.{◌≡◌, ◌≤◌, ◌<◌, ◌^◌, ℕ, List, length, map, take, drop, get_or, Some, IfSome, IfOk};
ghost use Rattle.model.specs.Schedule.{AreEntries, EntryFits};
ghost use Rattle.model.specs.declared.event.ScheduleEntry.{ScheduleEntry as Entry};
ghost use Rattle.schedule.specs.schedule_text.Digits.{HasDigits};
ghost use Rattle.schedule.specs.schedule_text.Outcomes.{Reads};
ghost use Rattle.schedule.specs.schedule_text.Text.{entry_tail, entry_word};

use crate::schedule_text::fault::TextFault;
use crate::schedule_text::numbers::number_within;
use crate::schedule_text::words::Words;
use model::{Event, ScheduleEntry};
use std::alloc::Global;

/// The most entries that a schedule may have.
const MOST: usize = 4_294_967_295;

/// How many digits the bytes begin with.
fn digits(bytes: &[u8]) -> usize
    ensures { HasDigits bytes.now result }
{
    'digits: for at in 0..bytes.len() {
        if bytes[at] < b'0' || b'9' < bytes[at] {
            return at;
        }
    }
    bytes.len()
}

fn entry_of(thread: u16, pick: u16, repeat: u32) -> ScheduleEntry
    ensures { result ≡ record { event = record { thread = thread; pick = pick }; repeat = repeat } }
{
    ScheduleEntry {
        event: Event { thread, pick },
        repeat,
    }
}

/// The entry of a thread with this behind the thread: nothing, `.PICK` or `*REPEAT`.
fn with_tail(thread: u16, bytes: &[u8]) -> Option<ScheduleEntry>
    ensures found { IfSome result (λ e. (e.event.thread ≡ thread) × (bytes.now ≡ entry_tail e) × EntryFits e) }
    ensures only { (e : Entry) → EntryFits e → e.event.thread ≡ thread → bytes.now ≡ entry_tail e → result ≡ Some e }
{
    match bytes {
        [] => Some(entry_of(thread, 0, 1)),
        [b'.', digits @ ..] => match number_within(digits, 1, 65_535) {
            Some(pick) => Some(entry_of(thread, pick as u16, 1)),
            None => None,
        },
        [b'*', digits @ ..] => match number_within(digits, 2, 4_294_967_295) {
            Some(repeat) => Some(entry_of(thread, 0, repeat as u32)),
            None => None,
        },
        _ => None,
    }
}

/// The entry that a word spells.
pub(crate) fn entry(word: &[u8]) -> Option<ScheduleEntry>
    ensures found { IfSome result (λ e. (word.now ≡ entry_word e) × EntryFits e) }
    ensures only { (e : Entry) → EntryFits e → word.now ≡ entry_word e → result ≡ Some e }
{
    let end = digits(word);
    match number_within(&word[..end], 0, 65_535) {
        Some(thread) => with_tail(thread as u16, &word[end..]),
        None => None,
    }
}

/// The entries that all words spell that are left.
pub(crate) fn entries(alloc: Global, words: &mut Words<'_>) -> Result<Vec<ScheduleEntry>, TextFault>
    ensures found { IfOk result (λ v. (words.old ≡ map entry_word v.items) × AreEntries v.items) }
    ensures only { (es : List Entry) → AreEntries es → words.old ≡ map entry_word es → Reads (λ v. v.items) result es }
{
    let mut entries = Vec::new(alloc);
    'entries: while let Some(word) = words.next() {
        let Some(entry) = entry(word) else {
            return Err(TextFault::Entry(words.line()));
        };
        if entries.len() == MOST {
            return Err(TextFault::TooMany(words.line()));
        }
        entries.push(entry)?;
    }
    Ok(entries)
}
