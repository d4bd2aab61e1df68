//! What a search keeps of the instructions that were looked at.

ghost use Rattle.std.specs.Prelude.{◌≡◌, replicate, slice_get, slice_set, Some, None, OnOk, IfOk, IfSome};
ghost use Rattle.verifier.specs.Looks.{AddsNoLook, NotesAt, SettlesAt};

use crate::found::Found;
use crate::look::{Look, look_after};
use std::alloc::{AllocError, Global};

/// So many offsets, at each of which nothing is known.
fn no_looks(alloc: Global, length: usize) -> Result<Vec<Option<Look>>, AllocError>
    ensures { IfOk result (λ looks. looks.items ≡ replicate length None) }
{
    let mut looks = Vec::with_capacity(alloc, length)?;
    'offsets: for _offset in 0..length {
        looks.push(None)?;
    }
    Ok(looks)
}

impl Found {
    /// Whether it is kept what is known of instructions that were looked at.
    pub fn keeps_looks(&self) -> bool {
        !self.looks.is_empty()
    }

    /// Counts a turn. Looks are kept once there were more turns than there are offsets, which few methods take.
    fn count_turn(&mut self, alloc: Global) -> Result<(), AllocError>
        ensures types { self.new.types.items ≡ self.old.types.items }
        ensures waiting { self.new.waiting ≡ self.old.waiting }
        ensures looks { AddsNoLook self.old.looks.items self.new.looks.items }
    {
        if self.keeps_looks() {
            return Ok(());
        }
        if self.turns < self.types.len() {
            self.turns += 1;
            return Ok(());
        }
        self.looks = no_looks(alloc, self.types.len())?;
        Ok(())
    }

    /// Says what is known of the instruction at an offset.
    pub fn set_look(&mut self, offset: usize, look: Option<Look>)
        ensures types { self.new.types.items ≡ self.old.types.items }
        ensures waiting { self.new.waiting ≡ self.old.waiting }
        ensures looks { self.new.looks.items ≡ slice_set self.old.looks.items offset look }
    {
        if let Some(place) = self.looks.get_mut(offset) {
            *place = look;
        }
    }

    /// Takes what is known of the instruction at an offset.
    fn take_look(&mut self, offset: usize) -> Option<Look>
        ensures types { self.new.types.items ≡ self.old.types.items }
        ensures waiting { self.new.waiting ≡ self.old.waiting }
        ensures looks { self.new.looks.items ≡ slice_set self.old.looks.items offset None }
        ensures look { IfSome result (λ look. slice_get self.old.looks.items offset ≡ Some (Some look)) }
    {
        match self.looks.get_mut(offset) {
            Some(place) => place.take(),
            None => None,
        }
    }

    /// Begins a turn at an offset: takes what is known of the instruction there.
    pub fn begin_turn(&mut self, alloc: Global, offset: usize) -> Result<Option<Look>, AllocError>
        ensures types { self.new.types.items ≡ self.old.types.items }
        ensures waiting { self.new.waiting ≡ self.old.waiting }
        ensures looks { AddsNoLook self.old.looks.items self.new.looks.items }
        ensures look { IfOk result (λ o. IfSome o (λ look. slice_get self.old.looks.items offset ≡ Some (Some look))) }
    {
        self.count_turn(alloc)?;
        let look = self.take_look(offset);
        Ok(look)
    }

    /// Local variables before the instruction at an offset changed.
    pub fn note(&mut self, offset: usize, changed: &[usize]) -> Result<(), AllocError>
        ensures types { OnOk result (self.new.types.items ≡ self.old.types.items) }
        ensures waiting { OnOk result (self.new.waiting ≡ self.old.waiting) }
        ensures looks { OnOk result (NotesAt offset changed.now self.old.looks.items self.new.looks.items) }
    {
        let Some(look) = self.take_look(offset) else {
            return Ok(());
        };
        let after = look_after(look, changed)?;
        self.set_look(offset, after);
        Ok(())
    }

    /// What the instruction at an offset led to is merged: to these offsets, its handlers aside. It is known, unless
    /// it waits again.
    pub fn settle(&mut self, alloc: Global, offset: usize, targets: Vec<usize>)
        ensures types { self.new.types.items ≡ self.old.types.items }
        ensures waiting { self.new.waiting ≡ self.old.waiting }
        ensures looks { SettlesAt offset targets.items self.old self.new }
    {
        if self.waiting.has(offset) {
            return;
        }
        let look = Look {
            targets,
            changed: Vec::new(alloc),
        };
        self.set_look(offset, Some(look));
    }

    /// Whether something is known of the instruction at an offset.
    pub fn has_look(&self, offset: usize) -> bool {
        match self.looks.get(offset) {
            Some(look) => look.is_some(),
            None => false,
        }
    }
}
