//! The classes that exception entries take.

ghost use Rattle.std.specs.Prelude.{◌≡◌, ◌++◌, map, OnOk};
ghost use Rattle.std.specs.List.{flat_map};
ghost use Rattle.linked_program.specs.type_tables.Rows.{caught_in};

use std::alloc::{AllocError, Global};

/// Adds those of a row.
fn add_row(tested: &mut Vec<u16>, row: &[Option<u16>]) -> Result<(), AllocError>
    ensures { OnOk result (tested.new.items ≡ tested.old.items ++ caught_in row.now) }
{
    for entry in row {
        if let Some(class) = entry {
            tested.push(*class)?;
        }
    }
    Ok(())
}

/// Adds those of rows, each of the indices of a constant pool.
pub(crate) fn add_caught(tested: &mut Vec<u16>, rows: &[Vec<Option<u16>>]) -> Result<(), AllocError>
    ensures { OnOk result (tested.new.items
        ≡ tested.old.items ++ flat_map caught_in (map (λ row. row.items) rows.now)) }
{
    for row in rows {
        add_row(tested, row)?;
    }
    Ok(())
}
