//! The entries of a stack, read by reference, from the top down.

ghost use Rattle.std.specs.Prelude.{◌≡◌, ◌==◌, drop, length, option_map};
ghost use Rattle.thread_stacks.specs.Stacks as spec;
ghost use Rattle.thread_stacks.specs.Stacks.{IsTopFrame, shown_frame};

use crate::entry::{Entry, Top};
use crate::frame::Frame;
use crate::reading::frame_in;
use crate::stack::ThreadStack;
use std::marker::Model;

/// What stands on a stack, or on it from some entry down.
#[derive(Drop)]
pub struct StackEntries<'a> {
    words: &'a [u32],
    used: usize,
    entries: &'a [Entry],
    frames: usize,
}

impl<'a> Model for StackEntries<'a> {
    ghost use Rattle.std.specs.Prelude.{List};
    ghost use Rattle.thread_stacks.specs.Stacks.{ShownEntry, shown, IsWhole};

    ghost Value = { List ShownEntry };

    ghost view = { λ s. shown s.used s.words.now s.entries.now };

    ghost invariant = { λ s. IsWhole s.used s.words.now s.entries.now s.frames };
}

impl<'a> StackEntries<'a> {
    /// Whether nothing is left.
    #[tactic(auto, using(crate::proofs::Entries::depth))]
    pub fn is_empty(&self) -> bool
        ensures { result ≡ (length self.now == 0) }
    {
        self.entries.is_empty()
    }

    /// What is on top of those that are left.
    pub fn top(&self) -> Top
        ensures { result ≡ spec.top_of self.now }
    {
        match self.entries.len().checked_sub(1) {
            None => Top::Empty,
            Some(last) => self.entries[last].top(),
        }
    }

    /// The frame on top of those that are left, if there is a frame.
    pub fn frame(&self) -> Option<Frame<'a>>
        ensures { IsTopFrame self.now (option_map shown_frame result) }
    {
        match self.entries.len().checked_sub(1) {
            None => None,
            Some(last) => frame_in(self.words, self.used, self.entries[last]),
        }
    }

    /// Goes past the entry on top, if there is one.
    pub fn go_under(&mut self)
        ensures { self.new ≡ drop 1 self.old }
    {
        if let Some((entry, under)) = self.entries.split_last() {
            self.used -= entry.size();
            self.frames -= entry.frames();
            self.entries = under;
        }
    }
}

impl ThreadStack {
    /// All entries that stand on it.
    pub fn entries(&self) -> StackEntries<'_>
        ensures { result ≡ self.now }
    {
        StackEntries {
            words: self.words.as_slice(),
            used: self.used,
            entries: self.entries.as_slice(),
            frames: self.frames,
        }
    }
}
