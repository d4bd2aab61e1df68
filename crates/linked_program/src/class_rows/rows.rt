//! The rows of all classes.

ghost use Rattle.std.specs.Prelude.{◌≡◌, length, map, IfOk};
ghost use Rattle.model.specs.Classes.{classes_of};
ghost use Rattle.linked_code.specs.Programs.{AreClasses};
ghost use Rattle.linked_program.specs.class_rows.Sources.{AreSources, DoRise, selections_of};

use crate::class_rows::row::row_of;
use crate::class_rows::sources::{RowSources, Selections};
use linked_code::LinkedClass;
use linker::class_constants::next_slot;
use std::alloc::{AllocError, Global};

/// The classes of linked files, each with its selections, which are given in the order of the classes. This alone takes
/// memory.
pub fn class_rows(
    alloc: Global,
    sources: &RowSources<'_>,
    selections: Vec<Selections>,
) -> Result<Vec<LinkedClass>, AllocError>
    requires sources { AreSources sources.now }
    requires count { length selections.items ≡ length (classes_of sources.now.set.now) }
    requires rising { DoRise selections.items }
    ensures rows { IfOk result (λ rows. AreClasses sources.now.set.now (classes_of sources.now.set.now) rows.items) }
    ensures selections { IfOk result (λ rows. map selections_of rows.items ≡ selections.items) }
{
    let mut rows = Vec::new(alloc);
    let mut rest = selections.into_iter();
    let mut slot = 0;
    for class in 0..sources.set.count() {
        let Some(file) = sources.set.class_at(class) else {
            return Ok(rows);
        };
        let Some(selected) = rest.next() else {
            return Ok(rows);
        };
        rows.push(row_of(alloc, sources, class, file, slot, selected)?)?;
        slot = next_slot(sources.set, class, file, slot);
    }
    Ok(rows)
}
