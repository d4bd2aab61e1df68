//! Rows of numbers of names, as a hierarchy keeps them.

ghost use Rattle.std.specs.Prelude.{◌≡◌, [], length, nat_eq, slice_get, true, IfOk};
ghost use Rattle.std.specs.List.{list_any};

use std::alloc::{AllocError, Global};
use std::marker::Model;

/// The numbers of names, in their order.
#[derive(Drop)]
pub(crate) struct Row {
    numbers: Vec<u32>,
}

impl Model for Row {
    ghost use Rattle.std.specs.Prelude.{ℕ, List};

    ghost Value = { List ℕ };

    ghost view = { λ s. s.numbers.items };
}

impl Row {
    pub(crate) fn empty(alloc: Global) -> Row
        ensures { result ≡ [] }
    {
        Row {
            numbers: Vec::new(alloc),
        }
    }

    /// The row of some numbers, which takes no more memory than they do.
    pub(crate) fn of(alloc: Global, numbers: &[u32]) -> Result<Row, AllocError>
        ensures { IfOk result (λ row. row ≡ numbers.now) }
    {
        let numbers = Vec::from_slice(alloc, numbers)?;
        Ok(Row { numbers })
    }

    pub(crate) fn count(&self) -> usize
        ensures { result ≡ length self.now }
    {
        self.numbers.len()
    }

    pub(crate) fn get(&self, place: usize) -> Option<u32>
        ensures { result ≡ slice_get self.now place }
    {
        self.numbers.get(place).copied()
    }

    pub(crate) fn contains(&self, number: u32) -> bool
        ensures { result ≡ list_any (nat_eq number) self.now }
    {
        self.numbers.contains(&number)
    }

    /// Whether another row has the same numbers in the same order.
    pub(crate) fn is_same(&self, other: &Row) -> bool
        ensures { result ≡ true → self.now ≡ other.now }
    {
        if self.count() != other.count() {
            return false;
        }
        for place in 0..self.count() {
            let Some(number) = self.get(place) else {
                return false;
            };
            let Some(there) = other.get(place) else {
                return false;
            };
            if number != there {
                return false;
            }
        }
        true
    }
}
