//! The pool as the list of its entries.

ghost use Rattle.std.specs.Prelude.{◌≡◌, ◌++◌, List, length, OnOk};
ghost use Rattle.model.specs.Tree.{Entry};
ghost use Rattle.model.specs.Spelling as spelling;
ghost use Rattle.constant_pool.specs.View.{entries_of};
ghost use Rattle.constant_pool.specs.Checking.{saturated};

use crate::constant::{Constant, put_u2};
use std::alloc::AllocError;
use std::marker::Model;

/// A constant pool. The index 1 names the first of its entries, and a `Long` or a `Double` takes two places.
#[derive(Drop)]
pub struct Pool {
    constants: Vec<Constant>,
}

impl Model for Pool {
    ghost Value = { List Entry };

    ghost view = { λ p. entries_of p.constants.items };
}

impl Pool {
    /// The pool of these entries.
    pub fn new(constants: Vec<Constant>) -> Pool
        ensures { result ≡ entries_of constants.items }
    {
        Pool { constants }
    }

    /// The entries, from that of the index 1 on.
    pub fn constants(&self) -> &[Constant]
        ensures { entries_of result.now ≡ self.now }
    {
        &self.constants
    }

    /// How many bytes the entries have, or the highest `usize` where they have more.
    pub fn length(&self) -> usize
        ensures { result ≡ saturated (length (spelling.entries self.now)) }
    {
        length_of(&self.constants)
    }

    /// Appends the bytes of the pool, from constant_pool_count on. Of a number that has no room in its field the lowest
    /// bytes are written.
    pub fn encode(&self, out: &mut Vec<u8>) -> Result<(), AllocError>
        ensures { OnOk result (out.new.items ≡ out.old.items ++ spelling.pool self.now) }
    {
        put_pool(&self.constants, out)
    }
}

fn length_of(constants: &[Constant]) -> usize
    ensures { result ≡ saturated (length (spelling.entries (entries_of constants.now))) }
{
    let mut sum = 0usize;
    'constants: for constant in constants {
        sum = sum.saturating_add(constant.length());
    }
    sum
}

/// A count, which is one above the number of places, and each entry.
fn put_pool(constants: &[Constant], out: &mut Vec<u8>) -> Result<(), AllocError>
    ensures { OnOk result (out.new.items ≡ out.old.items ++ spelling.pool (entries_of constants.now)) }
{
    put_u2(constants.len() + 1, out)?;
    'constants: for constant in constants {
        constant.encode(out)?;
    }
    Ok(())
}
