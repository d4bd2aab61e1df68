//! The table.

ghost use Rattle.std.specs.Prelude.{◌≡◌, ◌<◌, ◌≤◌, [], ◌∷◌, ◌++◌, Some, length, slice_get, slice_range, IfSome, IfOk, OnErr, IsTrue};
ghost use Rattle.word_table.specs.Lists.{AreLaid, start_at, lists_of, IsWritten};

use crate::hash::hash_of;
use crate::places::Places;
use std::alloc::{AllocError, Global};
use std::marker::Model;

/// The most lists, and the most words of all of them.
const MOST: usize = 4_294_967_295;

/// How many places there are at first.
const PLACES: usize = 1024;

/// Lists of words by their numbers, each written once.
#[derive(Drop)]
pub struct WordTable {
    alloc: Global,
    /// Those of all lists, one behind another.
    words: Vec<u32>,
    /// Where each list begins. It goes on up to where the next one begins.
    starts: Vec<u32>,
    places: Places,
}

impl Model for WordTable {
    ghost use Rattle.std.specs.Prelude.{ℕ, List, length, ◌≤◌};
    ghost use Rattle.word_table.specs.Lists.{lists_of, AreLaid};

    ghost Value = { List (List ℕ) };

    ghost view = { λ t. lists_of t.starts.items t.words.items };

    ghost invariant = { λ t. AreLaid t.starts.items (length t.words.items) × (length t.starts.items ≤ 4294967295) };
}

/// Where the list of a number begins; behind the last one that is at the end.
fn start(starts: &[u32], end: usize, number: usize) -> usize
    ensures { result ≡ start_at starts.now end number }
{
    match starts.get(number) {
        Some(start) => *start as usize,
        None => end,
    }
}

/// The words from a place up to another.
fn part(words: &[u32], first: usize, next: usize) -> &[u32]
    requires up { first ≤ next }
    requires within { next ≤ length words.now }
    ensures { result.now ≡ slice_range words.now first next }
{
    &words[first..next]
}

/// The list of a number, by where the lists begin.
fn list_at<'a>(starts: &[u32], words: &'a [u32], number: usize) -> &'a [u32]
    requires laid { AreLaid starts.now (length words.now) }
    requires there { number < length starts.now }
    ensures { slice_get (lists_of starts.now words.now) number ≡ Some result.now }
{
    let first = start(starts, words.len(), number);
    let next = start(starts, words.len(), number + 1);
    part(words, first, next)
}

impl WordTable {
    /// No list. The only error is a want of memory.
    pub fn new(alloc: Global) -> Result<WordTable, AllocError>
        ensures { IfOk result (λ t. t ≡ []) }
    {
        Ok(WordTable {
            alloc,
            words: Vec::new(alloc),
            starts: Vec::new(alloc),
            places: Places::new(alloc, PLACES)?,
        })
    }

    /// How many lists there are.
    pub fn len(&self) -> u32
        ensures { result ≡ length self.now }
    {
        self.starts.len() as u32
    }

    /// The list of a number, if there is one of this number.
    pub fn get(&self, number: u32) -> Option<&[u32]>
        ensures { IfSome result (λ words. slice_get self.now number ≡ Some words.now) }
    {
        let number = number as usize;
        if number < self.starts.len() {
            Some(list_at(self.starts.as_slice(), self.words.as_slice(), number))
        } else {
            None
        }
    }

    /// Whether the list of a number has these words.
    fn has(&self, number: u32, words: &[u32]) -> bool
        ensures { IsTrue result → slice_get self.now number ≡ Some words.now }
    {
        match self.get(number) {
            Some(list) => list == words,
            None => false,
        }
    }

    /// The number of a list with these words, if one is found.
    pub fn find(&self, words: &[u32]) -> Option<u32>
        ensures { IfSome result (λ number. slice_get self.now number ≡ Some words.now) }
    {
        let mut place = self.places.first(hash_of(words));
        'places: for _ in 0..self.places.len() {
            let number = self.places.at(place)?;
            if self.has(number, words) {
                return Some(number);
            }
            place = self.places.next(place);
        }
        None
    }

    /// Twice as many places, where there is no room for one more number.
    fn make_place(&mut self) -> Result<(), AllocError>
        ensures { self.new ≡ self.old }
    {
        let count = self.starts.len();
        if self.places.has_room(count) {
            return Ok(());
        }
        let mut places = Places::new(self.alloc, self.places.len().saturating_mul(2))?;
        'lists: for number in 0..count {
            let list = list_at(self.starts.as_slice(), self.words.as_slice(), number);
            places.put(hash_of(list), number as u32);
        }
        self.places = places;
        Ok(())
    }

    /// Adds a list with these words behind the others. Answers its number. On an error, a want of memory, nothing has
    /// changed.
    pub fn push(&mut self, words: &[u32]) -> Result<u32, AllocError>
        ensures ok { IfOk result (λ number. (number ≡ length self.old) × (self.new ≡ self.old ++ words.now ∷ [])) }
        ensures err { OnErr result (self.new ≡ self.old) }
    {
        self.make_place()?;
        let number = self.starts.len();
        let start = self.words.len();
        if number >= MOST || start > MOST {
            return Err(AllocError);
        }
        self.starts.reserve(1)?;
        self.words.extend_from_slice(words)?;
        self.starts.push_reserved(start as u32);
        self.places.put(hash_of(words), number as u32);
        Ok(number as u32)
    }

    /// The number of a list with these words, which is added unless one is found. What was there stays. On an error, a
    /// want of memory, nothing has changed.
    pub fn write(&mut self, words: &[u32]) -> Result<u32, AllocError>
        ensures ok { IfOk result (λ number. IsWritten words.now number self.old self.new) }
        ensures err { OnErr result (self.new ≡ self.old) }
    {
        match self.find(words) {
            Some(number) => Ok(number),
            None => self.push(words),
        }
    }
}
