//! The classes against which types are tested.

ghost use Rattle.std.specs.Prelude.{◌≡◌, ◌++◌, ℕ, List, Some, map, slice_get, IfOk, OnOk};
ghost use Rattle.std.specs.List.{flat_map};
ghost use Rattle.model.specs.Classes.{Program};
ghost use Rattle.model.specs.ReferenceTypes.{ReferenceType};
ghost use Rattle.linker.specs.Linking.{IsLinked};
ghost use Rattle.linked_code.specs.declared.subclasses.Subclasses.{Subclasses};
ghost use Rattle.linked_code.specs.declared.types.LinkedType.{LinkedType};
ghost use Rattle.linked_code.specs.Numbers.{IsType};
ghost use Rattle.linked_code.specs.Subtypes.{IsTested};
ghost use Rattle.opcodes.specs.linked_instructions.Operands.{EachRow};
ghost use Rattle.linker.specs.linked_types.Tested.{tested_in, tested_in_row, HaveColumns};

use linked_code::{Element, LinkedType};
use std::alloc::{AllocError, Global};

/// Adds the class of a type, or of an array's elements; a primitive type has none.
fn add_type(tested: &mut Vec<u16>, t: LinkedType) -> Result<(), AllocError>
    ensures { OnOk result (tested.new.items ≡ tested.old.items ++ tested_in t) }
{
    match t.element {
        Element::Class(class) => {
            tested.push(class)?;
            Ok(())
        }
        Element::Primitive(_) => Ok(()),
    }
}

/// Adds those of the types in a row.
fn add_row(tested: &mut Vec<u16>, row: &[Option<LinkedType>]) -> Result<(), AllocError>
    ensures { OnOk result (tested.new.items ≡ tested.old.items ++ tested_in_row row.now) }
{
    for entry in row {
        if let Some(t) = entry {
            add_type(tested, *t)?;
        }
    }
    Ok(())
}

/// The classes against which a run tests: those of the types in rows, each row of the entries of a constant pool, and
/// of component types, by their numbers, one for each type that isn't of a primitive element. Where a table of
/// subclasses has a column for each of them, these types can be tested by it. This alone takes memory.
pub fn tested_classes(
    alloc: Global,
    rows: &[Vec<Option<LinkedType>>],
    components: &[LinkedType],
) -> Result<Vec<u16>, AllocError>
    ensures all { IfOk result (λ tested. tested.items
        ≡ flat_map tested_in components.now ++ flat_map tested_in_row (map (λ row. row.items) rows.now)) }
    ensures rows { IfOk result (λ tested. (files : Program) (table : Subclasses) → IsLinked files
        → HaveColumns files tested.items table
        → (class : ℕ) (row : List _) → slice_get (map (λ row. row.items) rows.now) class ≡ Some row
        → EachRow row (λ index t. (type : ReferenceType) → IsType files t type → IsTested table t)) }
    ensures components { IfOk result (λ tested. (files : Program) (table : Subclasses) → IsLinked files
        → HaveColumns files tested.items table → (number : ℕ) (t : LinkedType)
        → slice_get components.now number ≡ Some t
        → (type : ReferenceType) → IsType files t type → IsTested table t) }
{
    let mut tested = Vec::new(alloc);
    for t in components {
        add_type(&mut tested, *t)?;
    }
    for row in rows {
        add_row(&mut tested, row)?;
    }
    Ok(tested)
}
