//! Schedules with places as a word of a command line.

ghost use Rattle.std.specs.Prelude.{IsTrue};
ghost use Rattle.place_texts.specs.CommandWord.{IsPlacesWord};

use crate::position::first_of;
use crate::read::read_deeds;
use std::alloc::Global;

/// Whether a word of a command line is a schedule with places, and no path: it has entries and places alone, at least
/// one place, and no comment. It is none where memory is missing.
pub fn is_places_word(alloc: Global, word: &[u8]) -> bool
    ensures { IsTrue result → IsPlacesWord word.now }
{
    if first_of(word, b'#').is_some() {
        return false;
    }
    match read_deeds(alloc, word) {
        Ok(Some(_deeds)) => true,
        Ok(None) | Err(_) => false,
    }
}
