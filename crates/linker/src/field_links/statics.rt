//! The slots of static fields.

ghost use Rattle.std.specs.Prelude.{◌≡◌, length, IfOk};
ghost use Rattle.model.specs.Opening.{static_fields};
ghost use Rattle.linker.specs.Linking.{IsLinked};
ghost use Rattle.linker.specs.field_links.Slots.{static_ends};

use crate::field_links::count::static_count;
use hierarchy::ClassSet;
use std::alloc::{AllocError, Global};

/// For each file how many static fields it and those before it declare, and how many all of them do.
pub(crate) fn static_ends(alloc: Global, set: &ClassSet) -> Result<(Vec<usize>, usize), AllocError>
    requires { IsLinked set.now }
    ensures ends { IfOk result (λ r. r.0.items ≡ static_ends 0 set.now) }
    ensures count { IfOk result (λ r. r.1 ≡ length (static_fields set.now)) }
{
    let mut ends = Vec::new(alloc);
    let mut end = 0usize;
    for number in 0..set.file_count() {
        let Some(file) = set.file_at(number) else {
            return Ok((ends, end));
        };
        end += static_count(&file.fields);
        ends.push(end)?;
    }
    Ok((ends, end))
}
