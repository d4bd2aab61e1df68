//! Which texts of a pool are the same.

ghost use Rattle.std.specs.Prelude.{◌≡◌, ◌==◌, ◌<◌, ◌+◌, List, ℕ, [], length, map, slice_index_or, IfOk};
ghost use Rattle.std.specs.Str.{bytes_eq};
ghost use Rattle.model.specs.Tree.{Entry};
ghost use Rattle.model.specs.Conditions.{text_at};
ghost use Rattle.constant_pool.specs.View.{entries_of};
ghost use Rattle.constant_pool.specs.Texts.{texts, first_place, first_index, HasPlaces};

use crate::constant::Constant;
use crate::pool::Pool;
use std::alloc::{AllocError, Global};
use std::collections::BTreeMap;
use std::marker::Model;

/// A pool, and for each index the first that has the same text. Contracts see the entries of the pool.
#[derive(Drop)]
pub struct FirstIndices<'a> {
    pool: &'a Pool,
    firsts: Vec<usize>,
}

impl<'a> Model for FirstIndices<'a> {
    ghost use Rattle.std.specs.Prelude.{◌≡◌, List, map};
    ghost use Rattle.model.specs.Tree.{Entry};
    ghost use Rattle.constant_pool.specs.Texts.{texts, first_place};

    ghost Value = { List Entry };

    ghost view = { λ f. f.pool.now };

    ghost invariant = { λ f. f.firsts.items ≡ map (first_place (texts f.pool.now)) (texts f.pool.now) };
}

/// The first place of the text that stands at the place `here`. What stands before it is in the map.
fn place_of<'a>(
    seen: &mut BTreeMap<&'a [u8], usize>,
    text: &'a [u8],
    here: usize,
) -> Result<usize, AllocError>
    ensures { (all : List (List ℕ)) → here < length all → slice_index_or all here [] ≡ text.now
        → HasPlaces all here seen.old
        → IfOk result (λ place. (place ≡ first_place all text.now) × HasPlaces all (here + 1) seen.new) }
{
    match seen.get(text).copied() {
        Some(place) => Ok(place),
        None => {
            seen.insert(text, here)?;
            Ok(here)
        }
    }
}

/// For each index, from 0 on, the first that has the same text.
fn firsts_of(alloc: Global, constants: &[Constant]) -> Result<Vec<usize>, AllocError>
    ensures { IfOk result (λ firsts. firsts.items
        ≡ map (first_place (texts (entries_of constants.now))) (texts (entries_of constants.now))) }
{
    let mut seen = BTreeMap::new(alloc);
    let mut firsts = Vec::with_capacity(alloc, constants.len() + 1)?;
    firsts.push(place_of(&mut seen, &[], 0)?)?;
    let mut here = 1usize;
    'constants: for constant in constants {
        firsts.push(place_of(&mut seen, constant.text(), here)?)?;
        here += 1;
    }
    Ok(firsts)
}

/// The first index at an index, or 0.
fn first_at(firsts: &[usize], index: u16) -> usize
    ensures { result ≡ slice_index_or firsts.now index 0 }
{
    match firsts.get(index as usize).copied() {
        Some(first) => first,
        None => 0,
    }
}

impl<'a> FirstIndices<'a> {
    /// The first indices of a pool. Each text is compared with as many others as a search in a sorted list needs.
    pub fn new(alloc: Global, pool: &'a Pool) -> Result<FirstIndices<'a>, AllocError>
        ensures { IfOk result (λ firsts. firsts ≡ pool.now) }
    {
        let firsts = firsts_of(alloc, pool.constants())?;
        Ok(FirstIndices { pool, firsts })
    }

    /// The first index that has the text of an index. The text is empty where an index names no Utf8, as that of 0.
    pub fn first(&self, index: u16) -> usize
        ensures value { result ≡ first_index self.now index }
        // Two indices have the same exactly where they have one text.
        ensures same { (other : ℕ)
            → (result == first_index self.now other) ≡ bytes_eq (text_at self.now index) (text_at self.now other) }
    {
        first_at(&self.firsts, index)
    }
}
