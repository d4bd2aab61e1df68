//! Reading with what a schedule was recorded.

ghost use Rattle.std.specs.Prelude.{◌≡◌, ◌↔◌, ◌∷◌, ◌++◌, ◌<◌, ◌^◌, ℕ, List, [], length, map, true, None, Some, Option, IsTrue, IfSome, IfOk, decimal};
ghost use Rattle.std.specs.List.{AllByRecursion};
ghost use Rattle.model.specs.Schedule.{AreEntries};
ghost use Rattle.model.specs.declared.event.ScheduleEntry.{ScheduleEntry};
ghost use Rattle.model.specs.declared.limits.Limits.{Limits as Bounds};
ghost use Rattle.schedule.specs.Files as file;
ghost use Rattle.schedule.specs.schedule_text.Outcomes.{Reads};
ghost use Rattle.schedule.specs.schedule_text.Recordings.{EndLengths};
ghost use Rattle.schedule.specs.schedule_text.Text.{entry_word, limit_words, recording_words};

use crate::Recording;
use crate::schedule_text::checksum_words::checked;
use crate::schedule_text::fault::TextFault;
use crate::schedule_text::numbers::number_within;
use crate::schedule_text::words::Words;
use model::Limits;
use std::alloc::Global;

/// The most class files that a recording may have.
const MOST: usize = 4_294_967_295;

/// Whether this is the next word, which is read.
fn heading(words: &mut Words<'_>, name: &[u8]) -> bool
    ensures found { IsTrue result → words.old ≡ name.now ∷ words.new }
    ensures only { (rest : List (List ℕ)) → words.old ≡ name.now ∷ rest → (result ≡ true) × (words.new ≡ rest) }
{
    match words.next() {
        Some(word) => word == name,
        None => false,
    }
}

/// The number behind this name in the next word.
fn limit(words: &mut Words<'_>, name: &[u8]) -> Option<u32>
    ensures found { IfSome result (λ n. words.old ≡ (name.now ++ decimal n) ∷ words.new) }
    ensures only { (n : ℕ) (rest : List (List ℕ)) → n < 2 ^ 32 → words.old ≡ (name.now ++ decimal n) ∷ rest
        → (result ≡ Some n) × (words.new ≡ rest) }
{
    match words.next() {
        Some(word) => match word.strip_prefix(name) {
            Some(digits) => match number_within(digits, 0, 4_294_967_295) {
                Some(number) => Some(number as u32),
                None => None,
            },
            None => None,
        },
        None => None,
    }
}

/// The length that the next word spells.
fn length(words: &mut Words<'_>) -> Option<u64>
    ensures found { IfSome result (λ n. words.old ≡ decimal n ∷ words.new) }
    ensures only { (n : ℕ) (rest : List (List ℕ)) → n < 2 ^ 64 → words.old ≡ decimal n ∷ rest
        → (result ≡ Some n) × (words.new ≡ rest) }
{
    match words.next() {
        Some(word) => number_within(word, 0, u64::MAX),
        None => None,
    }
}

/// The limits that the next five words spell.
fn limits(words: &mut Words<'_>) -> Option<Limits>
    ensures found { IfSome result (λ l. (words.old ≡ limit_words l ++ words.new) × (l.cells < 2 ^ 32)) }
    ensures only { (l : Bounds) (rest : List (List ℕ)) → l.cells < 2 ^ 32 → words.old ≡ limit_words l ++ rest
        → (result ≡ Some l) × (words.new ≡ rest) }
{
    let objects = limit(words, b"objects=")?;
    let cells = limit(words, b"cells=")?;
    let monitors = limit(words, b"monitors=")?;
    let threads = limit(words, b"threads=")?;
    let frames = limit(words, b"frames=")?;
    Limits::new(objects, cells, monitors, threads, frames)
}

/// Whether the next word ends lengths.
fn end_lengths(words: &Words<'_>) -> bool
    ensures is { IsTrue result ↔ EndLengths words.now }
{
    words.begins_with(b"#events") || words.begins_with(b"#checksums")
}

/// The lengths up to the word that ends them, which is not read.
fn lengths(alloc: Global, words: &mut Words<'_>) -> Result<Vec<u64>, TextFault>
    ensures found { IfOk result (λ v. (words.old ≡ map decimal v.items ++ words.new) × (length v.items < 2 ^ 32)) }
    ensures only { (ns : List ℕ) (rest : List (List ℕ)) → AllByRecursion (λ n. n < 2 ^ 64) ns → length ns < 2 ^ 32
        → EndLengths rest → words.old ≡ map decimal ns ++ rest
        → Reads {Y = List ℕ × List (List ℕ)} (λ v. (v.items, words.new)) result (ns, rest) }
{
    let mut lengths = Vec::new(alloc);
    'lengths: while !end_lengths(words) {
        let Some(length) = length(words) else {
            return Err(TextFault::Lengths(words.line()));
        };
        if lengths.len() == MOST {
            return Err(TextFault::TooMany(words.line()));
        }
        lengths.push(length)?;
    }
    Ok(lengths)
}

/// What the words say up to the entries.
fn recording(alloc: Global, words: &mut Words<'_>) -> Result<Recording, TextFault>
    ensures found { IfOk result (λ r. (words.old ≡ recording_words (Some r) ++ words.new) × file.RecordingFits r) }
    ensures only { (r : file.Recording) (rest : List (List ℕ)) → file.RecordingFits r
        → words.old ≡ recording_words (Some r) ++ rest
        → Reads {Y = file.Recording × List (List ℕ)} (λ x. (x, words.new)) result (r, rest) }
{
    if !heading(words, b"#limits") {
        return Err(TextFault::Limits(words.line()));
    }
    let Some(limits) = limits(words) else {
        return Err(TextFault::Limits(words.line()));
    };
    if !heading(words, b"#lengths") {
        return Err(TextFault::Lengths(words.line()));
    }
    let lengths = lengths(alloc, words)?;
    let checksums = checked(alloc, lengths.len(), words)?;
    if !heading(words, b"#events") {
        return Err(TextFault::Checksums(words.line()));
    }
    Ok(Recording::new(limits, lengths, checksums))
}

/// What stands in front of the entries, if anything does.
pub(crate) fn recorded(alloc: Global, words: &mut Words<'_>) -> Result<Option<Recording>, TextFault>
    ensures found { IfOk result (λ r. (words.old ≡ recording_words r ++ words.new) × file.RecordedFits r) }
    ensures only { (r : Option file.Recording) (es : List ScheduleEntry) → file.RecordedFits r → AreEntries es
        → words.old ≡ recording_words r ++ map entry_word es
        → Reads {Y = Option file.Recording × List (List ℕ)} (λ x. (x, words.new)) result (r, map entry_word es) }
{
    if words.begins_with(b"#limits") {
        Ok(Some(recording(alloc, words)?))
    } else {
        Ok(None)
    }
}
