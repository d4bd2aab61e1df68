//! The table of subclasses, made of the rows of all classes.

ghost use Rattle.std.specs.Prelude.{◌≡◌, ◌<◌, ◌^◌, true, is_some, length, IfOk, ℕ};
ghost use Rattle.model.specs.Classes.{classes_of};
ghost use Rattle.linked_code.specs.Subtypes.{AreSubclasses, HasColumn, column_of};
ghost use Rattle.types.specs.subclass_table.Columns.{is_tested};

use crate::subclass_table::columns::{columns_of, marks_of};
use crate::subclass_table::rows::rows_of;
use hierarchy::Hierarchy;
use linked_code::Subclasses;
use std::alloc::{AllocError, Global};

/// Which classes are below which of the tested ones; these are given by their numbers, in any order and as often as
/// one likes. The row of a class is made of those of the classes directly above it, where no class is above itself.
/// This alone takes memory: a bit for each class and each class that is tested, and three times as much while it
/// runs.
pub fn subclasses(
    alloc: Global,
    hierarchy: &Hierarchy,
    tested: &[u16],
) -> Result<Subclasses, AllocError>
    ensures right { IfOk result (AreSubclasses hierarchy.now) }
    ensures columns { IfOk result (λ table. (class : ℕ) → class < length (classes_of hierarchy.now) → class < 2 ^ 16
        → is_some (column_of table class) ≡ is_tested tested.now class) }
    ensures tested { IfOk result (λ table. (class : ℕ) → class < length (classes_of hierarchy.now) → class < 2 ^ 16
        → is_tested tested.now class ≡ true → HasColumn table class) }
{
    let count = hierarchy.set().count().min(0x1_0000);
    let marks = marks_of(alloc, count, tested)?;
    let columns = columns_of(alloc, &marks)?;
    let width = columns.classes.len().div_ceil(64);
    let bits = rows_of(alloc, hierarchy, &columns.by_class, width)?;
    Ok(Subclasses {
        columns: columns.by_class,
        width: width as u16,
        bits,
    })
}
