//! Schedules as a word of a command line.

ghost use Rattle.std.specs.Prelude.{◌≡◌, ◌↔◌, IsTrue};
ghost use Rattle.schedule.specs.schedule_text.CommandWord.{IsScheduleWord, has, is_comment_mark as comments, is_mark as marks};

use crate::schedule_text::entries::entry;
use crate::schedule_text::words::Words;

/// Whether a mark stands in a word, as in no path that is to be one.
fn has_mark(word: &[u8]) -> bool
    ensures { result ≡ has marks word.now }
{
    'bytes: for at in 0..word.len() {
        if matches!(word[at], b'*' | b'.' | b'@' | b' ') {
            return true;
        }
    }
    false
}

/// Whether a comment may stand in a word.
fn has_comment_mark(word: &[u8]) -> bool
    ensures { result ≡ has comments word.now }
{
    'bytes: for at in 0..word.len() {
        if matches!(word[at], b'#' | b'/') {
            return true;
        }
    }
    false
}

/// Whether a word of a command line is a schedule, and no path: it has entries alone, at least one, and `*`, `.`, `@`
/// or a space stands in it.
pub fn is_schedule_word(word: &[u8]) -> bool
    ensures { IsTrue result ↔ IsScheduleWord word.now }
{
    if !has_mark(word) || has_comment_mark(word) {
        return false;
    }
    let mut words = Words::new(word);
    let mut has_some = false;
    'words: while let Some(word) = words.next() {
        let Some(_entry) = entry(word) else {
            return false;
        };
        has_some = true;
    }
    has_some
}
