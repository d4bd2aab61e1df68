//! Conditions on a class file whose fields were read. Each is looked for in the order of the file.

ghost use Rattle.std.specs.Prelude.{◌≡◌, List, Bool, map, is_ok, IfErr};
ghost use Rattle.std.specs.List.{list_all};
ghost use Rattle.model.specs.Tree.{Entry};
ghost use Rattle.constant_pool.specs.declared.reading.fault.Cause as declared_cause;
ghost use Rattle.constant_pool.specs.Checking.{Checks};

use crate::spelled::Spelled;
use constant_pool::Texts;
use constant_pool::reading::{Cause, Malformed};

/// A part of a class file that has to meet a condition.
pub(crate) trait Checked<Condition>: Sized {
    /// It, without where it lies in memory.
    ghost Tree: { Type 0 };

    ghost view: { Self → Tree };

    /// Of what a part is at fault that does not meet it.
    ghost cause: { declared_cause.Cause };

    /// Whether the condition is met.
    ghost is_met: { List Entry → Tree → Bool };

    /// `at` is the offset of its first byte.
    fn check(&self, texts: &Texts<'_>, at: usize) -> Result<(), Malformed>
        ensures { Checks cause result (is_met texts.now (view self.now)) };
}

/// Checks each part, of which the first begins at the offset `at`, and gives the offset behind the last.
pub(crate) fn check_each<Condition, T: Checked<Condition> + Spelled>(
    texts: &Texts<'_>,
    parts: &[T],
    at: usize,
) -> Result<usize, Malformed>
    ensures { Checks T.cause result (list_all (T.is_met texts.now) (map T.view parts.now)) }
{
    let mut at = at;
    'parts: for part in parts {
        part.check(texts, at)?;
        at = at.saturating_add(part.length());
    }
    Ok(at)
}

/// The fault of this cause at the offset, unless the condition is met.
pub(crate) fn require(is_met: bool, cause: Cause, offset: usize) -> Result<(), Malformed>
    ensures { Checks cause result is_met }
{
    if is_met {
        Ok(())
    } else {
        Err(Malformed { cause, offset })
    }
}
