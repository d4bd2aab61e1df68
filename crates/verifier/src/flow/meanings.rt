//! The meanings of a method's instructions, which are read once where instructions are looked at many times.

ghost use Rattle.std.specs.Prelude.{◌≡◌, [], length, replicate, slice_get, slice_set, Some, None, OnOk, IfOk, IfSome};

use instruction_types::Meaning;
use std::alloc::{AllocError, Global};
use std::marker::Model;

/// The meanings of instructions that aren't local, by their offsets, as far as they are kept.
#[derive(Drop)]
pub struct Meanings {
    /// Empty while none are kept.
    kept: Vec<Option<Meaning>>,
}

impl Model for Meanings {
    ghost use Rattle.std.specs.Prelude.{List, Option};
    ghost use Rattle.instruction_types.specs.declared.meaning.Meaning.{Meaning};

    ghost Value = { List (Option Meaning) };

    ghost view = { λ s. s.kept.items };
}

/// So many offsets, at each of which none is kept.
fn none_of(alloc: Global, length: usize) -> Result<Vec<Option<Meaning>>, AllocError>
    ensures { IfOk result (λ kept. kept.items ≡ replicate length None) }
{
    let mut kept = Vec::with_capacity(alloc, length)?;
    'offsets: for _offset in 0..length {
        kept.push(None)?;
    }
    Ok(kept)
}

impl Meanings {
    /// None are kept.
    pub fn new(alloc: Global) -> Meanings
        ensures { result ≡ [] }
    {
        Meanings {
            kept: Vec::new(alloc),
        }
    }

    /// Whether some may be kept.
    pub fn are_kept(&self) -> bool {
        !self.kept.is_empty()
    }

    /// Keeps those at so many offsets from now on.
    pub fn keep_from_now(&mut self, alloc: Global, length: usize) -> Result<(), AllocError>
        ensures { OnOk result (self.new ≡ replicate length None) }
    {
        self.kept = none_of(alloc, length)?;
        Ok(())
    }

    /// The one that is kept at an offset.
    pub fn at(&self, offset: usize) -> Option<&Meaning>
        ensures { IfSome result (λ meaning. slice_get self.now offset ≡ Some (Some meaning.now)) }
    {
        match self.kept.get(offset) {
            Some(kept) => kept.as_ref(),
            None => None,
        }
    }

    /// Keeps one, if they are kept.
    pub fn keep(&mut self, offset: usize, meaning: Meaning)
        ensures { self.new ≡ slice_set self.old offset (Some meaning) }
    {
        if let Some(place) = self.kept.get_mut(offset) {
            *place = Some(meaning);
        }
    }
}
