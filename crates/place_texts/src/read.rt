//! Reading a text with places.

ghost use Rattle.std.specs.Prelude.{◌≡◌, ◌⊎◌, ◌++◌, ◌+◌, ◌<◌, ◌∷◌, [], drop, is_some, length, take, true, IfErr};
ghost use Rattle.std.specs.Prelude.{IfOk, IfSome, None};
ghost use Rattle.std.specs.List.{list_any};
ghost use Rattle.schedule.specs.declared.schedule_text.fault.TextFault.TheVariants.{OutOfMemory};
ghost use Rattle.model.specs.Schedule.{EntryFits};
ghost use Rattle.schedule.specs.schedule_text.Text.{SpellsSchedule, text_words};
ghost use Rattle.place_texts.specs.Fitting.{Fits, once};
ghost use Rattle.place_texts.specs.Places.{deed_of, deeds_of};
ghost use Rattle.place_texts.specs.Reading.{is_marked, texts};
ghost use Rattle.place_texts.specs.Texts.{SpellDeeds, SpellsDeed};

use crate::place::{Deed, PlacedDeed};
use crate::position::{first_of, place};
use crate::words::{TextWord, words_of};
use model::ScheduleEntry;
use schedule::schedule_text::{TextFault, parse};
use std::alloc::{AllocError, Global};

/// The entry that a word spells, as a text of its own. The only error is a want of memory.
fn entry(alloc: Global, word: &[u8]) -> Result<Option<ScheduleEntry>, AllocError>
    ensures { IfOk result (λ found. IfSome found (λ e. SpellsSchedule word.now None (e ∷ []) × EntryFits e)) }
{
    let (schedule, recorded) = match parse(alloc, word) {
        Ok(read) => read,
        Err(TextFault::OutOfMemory) => return Err(AllocError),
        Err(_fault) => return Ok(None),
    };
    if recorded.is_some() || schedule.len() != 1 {
        return Ok(None);
    }
    Ok(Some(schedule.entry(0)))
}

/// The thread that a word spells alone.
fn thread(alloc: Global, word: &[u8]) -> Result<Option<u16>, AllocError>
    ensures { IfOk result (λ found. IfSome found (λ t. SpellsSchedule word.now None (once t ∷ []))) }
{
    match entry(alloc, word)? {
        Some(entry) if entry.event.pick == 0 && entry.repeat == 1 => Ok(Some(entry.event.thread)),
        _ => Ok(None),
    }
}

/// What a word stands for that has a place: its thread stands in front of the `@`.
fn until(alloc: Global, word: &[u8], at: usize) -> Result<Option<Deed>, AllocError>
    requires within { at < length word.now }
    requires at { word.now ≡ take at word.now ++ 64 ∷ drop (at + 1) word.now }
    ensures { IfOk result (λ found. IfSome found (λ d. SpellsDeed word.now (deed_of d) × Fits d)) }
{
    let Some(thread) = thread(alloc, &word[..at])? else {
        return Ok(None);
    };
    match place(alloc, &word[at + 1..])? {
        Some(place) => Ok(Some(Deed::Until(thread, place))),
        None => Ok(None),
    }
}

/// What a word stands for.
fn deed(alloc: Global, word: &[u8]) -> Result<Option<Deed>, AllocError>
    ensures { IfOk result (λ found. IfSome found (λ d. SpellsDeed word.now (deed_of d) × Fits d)) }
{
    if let Some(at) = first_of(word, b'@') {
        return until(alloc, word, at);
    }
    match entry(alloc, word)? {
        Some(entry) => Ok(Some(Deed::Entry(entry))),
        None => Ok(None),
    }
}

/// Whether a word has the mark of a place.
fn has_place(words: &[TextWord]) -> bool
    ensures { result ≡ list_any (λ w. is_marked w.bytes.items) words.now }
{
    'words: for word in words {
        if first_of(&word.bytes, b'@').is_some() {
            return true;
        }
    }
    false
}

/// What words stand for, of which each is an entry or has a place.
fn placed_deeds(alloc: Global, words: &[TextWord]) -> Result<Vec<PlacedDeed>, TextFault>
    ensures { IfOk result (λ deeds. SpellDeeds (texts words.now) (deeds_of deeds.items)) }
{
    let mut deeds = Vec::new(alloc);
    'words: for word in words {
        match deed(alloc, &word.bytes)? {
            Some(deed) => deeds.push(PlacedDeed {
                deed,
                line: word.line,
            })?,
            None => return Err(TextFault::Entry(word.line)),
        }
    }
    Ok(deeds)
}

/// What the words of a text stand for that has places: each is an entry, or has a place. `None` where none has one.
///
/// # Errors
///
/// `Entry`, with its line, where a word of a text with places is neither; and `OutOfMemory`.
pub fn read_deeds(alloc: Global, text: &[u8]) -> Result<Option<Vec<PlacedDeed>>, TextFault>
    // The words of the text spell what is answered.
    ensures found { IfOk result (λ found. IfSome found (λ deeds.
        SpellDeeds (text_words text.now) (deeds_of deeds.items))) }
    // Where nothing is answered, no word has the mark of a place; and else one has.
    ensures marked { IfOk result (λ found. is_some found ≡ list_any is_marked (text_words text.now)) }
    ensures refused { IfErr result (λ fault. (fault ≡ OutOfMemory)
        ⊎ (list_any is_marked (text_words text.now) ≡ true)) }
{
    let words = words_of(alloc, text)?;
    if !has_place(words.as_slice()) {
        return Ok(None);
    }
    match placed_deeds(alloc, words.as_slice()) {
        Ok(deeds) => Ok(Some(deeds)),
        Err(fault) => Err(fault),
    }
}
