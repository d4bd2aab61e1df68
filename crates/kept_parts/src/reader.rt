//! A reader of words.

ghost use Rattle.std.specs.Prelude.{◌≡◌, ◌∷◌, ◌++◌, [], length, IfOk, IfSome, IsTrue};

use std::alloc::AllocError;

/// Words that are still to be read.
#[derive(Clone, Copy)]
pub struct Reader<'a> {
    pub rest: &'a [u32],
}

impl<'a> Reader<'a> {
    pub fn new(words: &'a [u32]) -> Reader<'a>
        ensures { result.rest.now ≡ words.now }
    {
        Reader { rest: words }
    }

    /// Whether none is left.
    pub fn is_done(&self) -> bool
        ensures { IsTrue result → self.now.rest.now ≡ [] }
    {
        self.rest.is_empty()
    }

    /// The next word, if there is one.
    pub fn word(&mut self) -> Option<u32>
        ensures { IfSome result (λ word. self.old.rest.now ≡ word ∷ self.new.rest.now) }
    {
        let (word, rest) = self.rest.split_first()?;
        self.rest = rest;
        Some(*word)
    }

    /// The next word. An error where there is none.
    pub fn next_word(&mut self) -> Result<u32, AllocError>
        ensures { IfOk result (λ word. self.old.rest.now ≡ word ∷ self.new.rest.now) }
    {
        self.word().ok_or(AllocError)
    }

    /// The next so many words. An error where there are not as many.
    pub fn words(&mut self, count: u32) -> Result<&'a [u32], AllocError>
        ensures words { IfOk result (λ words. self.old.rest.now ≡ words.now ++ self.new.rest.now) }
        ensures many { IfOk result (λ words. length words.now ≡ count) }
    {
        let count = count as usize;
        if count > self.rest.len() {
            return Err(AllocError);
        }
        let (words, rest) = self.rest.split_at(count);
        self.rest = rest;
        Ok(words)
    }

    /// All words that are left.
    pub fn all(&self) -> &'a [u32]
        ensures { result.now ≡ self.now.rest.now }
    {
        self.rest
    }
}
