//! How many slots the objects of each class have.

ghost use Rattle.std.specs.Prelude.{◌≡◌, IfOk};
ghost use Rattle.linker.specs.Linking.{IsLinked};
ghost use Rattle.linker.specs.field_links.Slots.{sizes};

use crate::field_links::chain::{Counted, chain_sum, shapes};
use hierarchy::ClassSet;
use std::alloc::{AllocError, Global};

/// For each class how many instance fields its objects have, with those of its superclasses, or how many of them count.
pub(crate) fn sizes(
    alloc: Global,
    set: &ClassSet,
    counted: Counted,
) -> Result<Vec<usize>, AllocError>
    requires { IsLinked set.now }
    ensures { IfOk result (λ rows. rows.items ≡ sizes counted set.now) }
{
    let shapes = shapes(alloc, set, counted)?;
    let mut rows = Vec::new(alloc);
    for place in 0..shapes.len() {
        rows.push(chain_sum(&shapes, place))?;
    }
    Ok(rows)
}
