//! Where the numbers of lists are looked for, by their hashes.

use std::alloc::{AllocError, Global};

/// Places for numbers, some of them empty. Nothing is claimed of which numbers are there.
#[derive(Drop)]
pub(crate) struct Places {
    /// In each place a number plus one, or 0 where it is empty.
    held: Vec<u32>,
}

impl Places {
    /// So many places, all empty. The only error is a want of memory.
    pub(crate) fn new(alloc: Global, count: usize) -> Result<Places, AllocError> {
        Ok(Places {
            held: vec![in alloc; 0; count]?,
        })
    }

    /// How many there are.
    pub(crate) fn len(&self) -> usize {
        self.held.len()
    }

    /// Whether at least half of them stay empty beside so many numbers.
    pub(crate) fn has_room(&self, numbers: usize) -> bool {
        numbers < self.held.len() / 2
    }

    /// The place that comes at first for a hash.
    pub(crate) fn first(&self, hash: u64) -> usize {
        let last = self.held.len().saturating_sub(1);
        (hash as usize) & last
    }

    /// The place that comes behind this one.
    pub(crate) fn next(&self, place: usize) -> usize {
        let last = self.held.len().saturating_sub(1);
        place.wrapping_add(1) & last
    }

    /// The number in a place, if there is one.
    pub(crate) fn at(&self, place: usize) -> Option<u32> {
        let held = *self.held.get(place)?;
        held.checked_sub(1)
    }

    /// Puts a number in the first empty place that comes for a hash, if there is one.
    pub(crate) fn put(&mut self, hash: u64, number: u32) {
        let mut place = self.first(hash);
        'places: for _ in 0..self.held.len() {
            if self.at(place).is_none() {
                if let Some(held) = self.held.get_mut(place) {
                    *held = number.saturating_add(1);
                }
                return;
            }
            place = self.next(place);
        }
    }
}
