//! How many instance fields of a class may count as cells (own).

ghost use Rattle.std.specs.Prelude.{◌≡◌, position, nat_lt, IfOk};
ghost use Rattle.model.specs.Linkable.{too_many_fields};

use crate::limits_of_linking::climb::{Climb, climb_all};
use hierarchy::ClassSet;
use model::BUILT_IN_CLASSES;
use std::alloc::{AllocError, Global};

/// How many cells a class may have, with those of its superclasses.
const MAX_CELLS: usize = 65_535;

/// The first class that has more.
fn first_above_limit(classes: &[Climb]) -> Option<usize>
    ensures { result ≡ position (λ row. nat_lt MAX_CELLS row.cells) classes.now }
{
    classes.iter().position(|row| row.cells > MAX_CELLS)
}

/// The first file whose class has more than 65,535 instance fields that count as cells, with those of its superclasses.
/// Files count from 0. Takes the time of n steps for each doubling of n, where n is the number of classes, however long
/// a chain of superclasses is.
pub fn first_with_too_many_fields(
    alloc: Global,
    set: &ClassSet,
) -> Result<Option<usize>, AllocError>
    ensures { IfOk result (λ number. number ≡ position (too_many_fields set.now) set.now) }
{
    let rows = climb_all(alloc, set)?;
    let Some(files) = rows.get(BUILT_IN_CLASSES..) else {
        return Ok(None);
    };
    Ok(first_above_limit(files))
}
