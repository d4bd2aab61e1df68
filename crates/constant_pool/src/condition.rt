//! Conditions on the entries of a pool, looked for in the order of the file.

ghost use Rattle.std.specs.Prelude.{◌≡◌, List, Bool};
ghost use Rattle.std.specs.List.{list_all};
ghost use Rattle.model.specs.Tree.{Entry};
ghost use Rattle.constant_pool.specs.declared.reading.fault.Cause as declared_cause;
ghost use Rattle.constant_pool.specs.View.{entry_of, entries_of};
ghost use Rattle.constant_pool.specs.Checking.{Checks};

use crate::constant::Constant;
use crate::reading::{Cause, Malformed};

/// What each entry of a pool has to meet.
pub(crate) trait Condition: Sized {
    /// Of what an entry is at fault that does not meet it.
    ghost cause: { declared_cause.Cause };

    /// Whether an entry meets it.
    ghost is_met: { Self → Entry → Bool };

    /// `at` is the offset of the entry's first byte.
    fn check(&self, constant: &Constant, at: usize) -> Result<(), Malformed>
        ensures { Checks cause result (is_met self.now (entry_of constant.now)) };
}

/// Checks each entry of a pool that begins at the offset `at`.
pub(crate) fn check_entries<C: Condition>(
    condition: &C,
    constants: &[Constant],
    at: usize,
) -> Result<(), Malformed>
    ensures { Checks C.cause result (list_all (C.is_met condition.now) (entries_of constants.now)) }
{
    let mut place = at.saturating_add(2);
    'constants: for constant in constants {
        condition.check(constant, place)?;
        place = place.saturating_add(constant.length());
    }
    Ok(())
}

/// The fault of this cause at the offset, unless the condition is met.
pub(crate) fn require(is_met: bool, cause: Cause, offset: usize) -> Result<(), Malformed>
    ensures { Checks cause result is_met }
{
    if is_met {
        Ok(())
    } else {
        Err(Malformed { cause, offset })
    }
}
