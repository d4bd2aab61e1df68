//! The fields that the Fieldrefs of constant pools name.

ghost use Rattle.std.specs.Prelude.{◌≡◌, IfOk, map};
ghost use Rattle.linker.specs.Linking.{IsLinked};
ghost use Rattle.classfile.specs.View.{file_of};
ghost use Rattle.linker.specs.field_links.Slots.{AreEnds};
ghost use Rattle.linker.specs.field_links.Tables.{IsRow, AreRows};

use crate::field_links::link::FieldLink;
use crate::field_links::named::link_of_index;
use crate::field_links::slots::Ends;
use classfile::ClassFile;
use hierarchy::Hierarchy;
use std::alloc::{AllocError, Global};

/// The links of a file's fields, by the index.
fn link_row(
    alloc: Global,
    hierarchy: &Hierarchy,
    ends: &Ends,
    file: &ClassFile,
) -> Result<Vec<Option<FieldLink>>, AllocError>
    requires linked { IsLinked hierarchy.now }
    requires ends { AreEnds hierarchy.now ends.now }
    ensures { IfOk result (λ row. IsRow hierarchy.now (file_of file.now) row.items) }
{
    let mut row = Vec::new(alloc);
    let indices = (file.pool.constants().len() + 1).min(0x1_0000);
    for index in 0..indices {
        row.push(link_of_index(hierarchy, ends, file, index as u16))?;
    }
    Ok(row)
}

/// The links of fields of each class.
pub(crate) fn link_rows(
    alloc: Global,
    hierarchy: &Hierarchy,
    ends: &Ends,
) -> Result<Vec<Vec<Option<FieldLink>>>, AllocError>
    requires linked { IsLinked hierarchy.now }
    requires ends { AreEnds hierarchy.now ends.now }
    ensures { IfOk result (λ rows. AreRows hierarchy.now (map (λ row. row.items) rows.items)) }
{
    let set = hierarchy.set();
    let mut rows = Vec::new(alloc);
    for place in 0..set.count() {
        let Some(file) = set.class_at(place) else {
            return Ok(rows);
        };
        rows.push(link_row(alloc, hierarchy, ends, file)?)?;
    }
    Ok(rows)
}
