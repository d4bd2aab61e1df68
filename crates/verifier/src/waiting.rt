//! The offsets that wait for their instruction to be looked at.

ghost use Rattle.std.specs.Prelude.{◌≡◌, ◌<◌, ℕ, length, false, true, replicate, IfOk, IfSome, IfNone};
ghost use Rattle.run_laws.specs.typing_search.Tables.{waits, waiting_at, taken_off};
ghost use Rattle.verifier.specs.Waiting.{NoneWaitsBelow};

use std::alloc::{AllocError, Global};
use std::marker::Model;

/// Which offsets of a method's code wait for their instruction to be looked at.
#[derive(Drop)]
pub(crate) struct Waiting {
    /// Whether each offset waits.
    marks: Vec<bool>,
    /// None below this one does.
    lowest: usize,
}

impl Model for Waiting {
    ghost use Rattle.std.specs.Prelude.{List, Bool};
    ghost use Rattle.verifier.specs.Waiting.{NoneWaitsBelow};

    ghost Value = { List Bool };

    ghost view = { λ w. w.marks.items };

    ghost invariant = { λ w. NoneWaitsBelow w.marks.items w.lowest };
}

impl Waiting {
    /// So many offsets, none of which waits.
    pub fn new(alloc: Global, length: usize) -> Result<Waiting, AllocError>
        ensures { IfOk result (λ waiting. waiting ≡ replicate length false) }
    {
        let marks = vec![in alloc; false; length]?;
        Ok(Waiting { marks, lowest: 0 })
    }

    /// Whether an offset waits.
    pub fn has(&self, offset: usize) -> bool
        ensures { result ≡ waits self.now offset }
    {
        offset < self.marks.len() && self.marks[offset]
    }

    /// From now on the offset waits.
    pub fn add(&mut self, offset: usize)
        requires { offset < length self.old }
        ensures { self.new ≡ waiting_at self.old offset }
    {
        self.marks[offset] = true;
        if offset < self.lowest {
            self.lowest = offset;
        }
    }

    /// Takes the lowest offset that waits off.
    pub fn take_lowest(&mut self) -> Option<usize>
        ensures waits { IfSome result (λ offset. waits self.old offset ≡ true) }
        ensures lowest { IfSome result (NoneWaitsBelow self.old) }
        ensures taken_off { IfSome result (λ offset. self.new ≡ taken_off self.old offset) }
        ensures none { IfNone result ((offset : ℕ) → waits self.old offset ≡ false) }
        ensures unchanged { IfNone result (self.new ≡ self.old) }
    {
        for offset in self.lowest..self.marks.len() {
            if self.marks[offset] {
                self.marks[offset] = false;
                self.lowest = offset;
                return Some(offset);
            }
        }
        None
    }
}
