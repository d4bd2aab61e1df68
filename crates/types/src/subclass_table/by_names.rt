//! Rows that are made by names, where those of the classes above a class are not there.

ghost use Rattle.std.specs.Prelude.{◌≡◌, ◌<◌, ◌*◌, ◌==◌, ◌||◌, ◌&&◌, ℕ, length, IfOk};
ghost use Rattle.model.specs.ReferenceTypes.{is_subclass_or_implements};
ghost use Rattle.types.specs.subclass_table.Rows.{has_bit, is_above_at, FitIn, IsRow};

use crate::subclass_table::bits::{clear_row, set_bit};
use crate::subclass_table::columns::column_at;
use classfile::class_name;
use hierarchy::Hierarchy;
use std::alloc::{AllocError, Global};

/// Sets the bit of a column, if a class is at a place, and is above another one.
fn add_class(hierarchy: &Hierarchy, row: &mut Vec<u64>, class: &[u8], place: usize, column: usize)
    requires { column < length row.now.items * 64 }
    ensures wide { length row.new.items ≡ length row.old.items }
    ensures bits { (other : ℕ) → has_bit row.new.items other
        ≡ (has_bit row.old.items other || (column == other && is_above_at hierarchy.now class.now place)) }
{
    if let Some(above) = hierarchy.set().class_at(place) {
        if hierarchy.is_subclass_or_implements(class, class_name(above)) {
            set_bit(row, column);
        }
    }
}

/// The row of the class of a name.
pub(crate) fn row_by_names(
    alloc: Global,
    hierarchy: &Hierarchy,
    columns: &[Option<u16>],
    width: usize,
    class: &[u8],
) -> Result<Vec<u64>, AllocError>
    requires { FitIn columns.now width }
    ensures wide { IfOk result (λ row. length row.items ≡ width) }
    ensures row { IfOk result (λ row.
        IsRow hierarchy.now columns.now (is_subclass_or_implements hierarchy.now class.now) row.items) }
{
    let mut row = clear_row(alloc, width)?;
    for place in 0..columns.len() {
        if let Some(column) = column_at(columns, place) {
            add_class(hierarchy, &mut row, class, place, column as usize);
        }
    }
    Ok(row)
}
