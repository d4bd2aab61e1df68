//! Rows in the making.

ghost use Rattle.std.specs.Prelude.{◌≡◌, [], length, nat_eq, slice_get, Some, OnOk, IfOk};
ghost use Rattle.std.specs.List.{list_any};
ghost use Rattle.hierarchy.specs.Numbers.{with_number, with_numbers, KeepsOthers};

use crate::row::Row;
use std::alloc::{AllocError, Global};
use std::marker::Model;

/// A row in the making: numbers, each once, in the order in which they came. It serves for one row after the other.
#[derive(Drop)]
pub(crate) struct NumberSet {
    numbers: Vec<u32>,
    /// For each number that is there the place at which it stands. What is written of others says nothing.
    places: Vec<usize>,
}

impl Model for NumberSet {
    ghost use Rattle.std.specs.Prelude.{ℕ, List};
    ghost use Rattle.hierarchy.specs.Numbers.{ArePlaces};

    ghost Value = { List ℕ };

    ghost view = { λ s. s.numbers.items };

    ghost invariant = { λ s. ArePlaces s.numbers.items s.places.items };
}

/// The place that is written down of a number.
fn place_of(places: &[usize], number: u32) -> Option<usize>
    ensures { result ≡ slice_get places.now number }
{
    places.get(number as usize).copied()
}

fn number_at(numbers: &[u32], place: usize) -> Option<u32>
    ensures { result ≡ slice_get numbers.now place }
{
    numbers.get(place).copied()
}

/// Writes down the place of a number.
fn write_place(places: &mut Vec<usize>, number: u32, place: usize) -> Result<(), AllocError>
    ensures others { KeepsOthers number places.old.items places.new.items }
    ensures written { OnOk result (slice_get places.new.items number ≡ Some place) }
{
    let number = number as usize;
    if places.len() <= number {
        places.resize(number + 1, 0)?;
    }
    places[number] = place;
    Ok(())
}

impl NumberSet {
    /// An empty one for so many numbers. More than these take memory when they are added.
    pub(crate) fn new(alloc: Global, count: usize) -> Result<NumberSet, AllocError>
        ensures { IfOk result (λ set. set ≡ []) }
    {
        let mut places = Vec::new(alloc);
        places.resize(count, 0)?;
        Ok(NumberSet {
            numbers: Vec::new(alloc),
            places,
        })
    }

    pub(crate) fn clear(&mut self)
        ensures { self.new ≡ [] }
    {
        self.numbers.clear();
    }

    fn count(&self) -> usize
        ensures { result ≡ length self.now }
    {
        self.numbers.len()
    }

    fn contains(&self, number: u32) -> bool
        ensures { result ≡ list_any (nat_eq number) self.now }
    {
        let Some(place) = place_of(&self.places, number) else {
            return false;
        };
        match number_at(&self.numbers, place) {
            Some(there) => number == there,
            None => false,
        }
    }

    /// Adds a number, unless it is there.
    pub(crate) fn add(&mut self, number: u32) -> Result<(), AllocError>
        ensures { OnOk result (self.new ≡ with_number self.old number) }
    {
        if self.contains(number) {
            return Ok(());
        }
        let place = self.count();
        write_place(&mut self.places, number, place)?;
        self.numbers.push(number)?;
        Ok(())
    }

    /// Adds each number of a row, unless it is there.
    pub(crate) fn add_all(&mut self, row: &Row) -> Result<(), AllocError>
        ensures { OnOk result (self.new ≡ with_numbers self.old row.now) }
    {
        for place in 0..row.count() {
            let Some(number) = row.get(place) else {
                return Ok(());
            };
            self.add(number)?;
        }
        Ok(())
    }

    /// The row of these numbers, which takes no more memory than they do.
    pub(crate) fn to_row(&self, alloc: Global) -> Result<Row, AllocError>
        ensures { IfOk result (λ row. row ≡ self.now) }
    {
        Row::of(alloc, self.numbers.as_slice())
    }
}
