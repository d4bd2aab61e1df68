//! The rows of all classes, each of the indices of its constant pool.

ghost use Rattle.std.specs.Prelude.{◌≡◌, map, IfOk};
ghost use Rattle.linker.specs.linked_types.Components.{AreComponents};
ghost use Rattle.linked_program.specs.type_tables.Rows.{AreRows, AreTypesIn, AreComponentsIn, AreCatchesIn};

use crate::linked_operands::{catches_of, components_of, types_of};
use linked_code::LinkedType;
use linker::Linked;
use linker::linked_types::Components;
use std::alloc::{AllocError, Global};

/// The types of `checkcast` and `instanceof`.
pub(crate) fn type_rows(
    alloc: Global,
    linked: &Linked,
) -> Result<Vec<Vec<Option<LinkedType>>>, AllocError>
    ensures { IfOk result (λ rows. AreRows linked.now (AreTypesIn linked.now) (map (λ row. row.items) rows.items)) }
{
    let mut rows = Vec::new(alloc);
    for class in 0..linked.set().count() {
        rows.push(types_of(alloc, linked, class)?)?;
    }
    Ok(rows)
}

/// The numbers of the component types of `anewarray`.
pub(crate) fn component_rows(
    alloc: Global,
    linked: &Linked,
    components: &Components,
) -> Result<Vec<Vec<Option<u32>>>, AllocError>
    requires components { AreComponents linked.now components.now }
    ensures { IfOk result (λ rows. AreRows linked.now (AreComponentsIn linked.now components.now.types.items)
        (map (λ row. row.items) rows.items)) }
{
    let mut rows = Vec::new(alloc);
    for class in 0..linked.set().count() {
        rows.push(components_of(alloc, linked, components, class)?)?;
    }
    Ok(rows)
}

/// The numbers of the classes that exception entries take.
pub(crate) fn catch_rows(
    alloc: Global,
    linked: &Linked,
) -> Result<Vec<Vec<Option<u16>>>, AllocError>
    ensures { IfOk result (λ rows. AreRows linked.now (AreCatchesIn linked.now) (map (λ row. row.items) rows.items)) }
{
    let mut rows = Vec::new(alloc);
    for class in 0..linked.set().count() {
        rows.push(catches_of(alloc, linked, class)?)?;
    }
    Ok(rows)
}
