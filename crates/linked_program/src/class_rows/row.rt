//! The row of a class.

ghost use Rattle.std.specs.Prelude.{◌≡◌, Some, IfOk};
ghost use Rattle.classfile.specs.View.{file_of};
ghost use Rattle.hierarchy.specs.Places.{class_at};
ghost use Rattle.linked_code.specs.ClassRows.{AreRising, IsLinkedClass};
ghost use Rattle.linker.specs.class_constants.Constants.{slots_before};
ghost use Rattle.linked_program.specs.class_rows.Sources.{AreSources, selections_of};

use crate::class_rows::cloneable::is_cloneable;
use crate::class_rows::initialiser::initialiser_of;
use crate::class_rows::name::dotted_name;
use crate::class_rows::numbers::{cell_count, field_count, superclass_number};
use crate::class_rows::sources::{RowSources, Selections};
use classfile::{ClassFile, class_name};
use linked_code::LinkedClass;
use linker::class_constants::constants_of;
use std::alloc::{AllocError, Global};

/// The class of a number, whose static fields' slots begin at `slot`.
pub(crate) fn row_of(
    alloc: Global,
    sources: &RowSources<'_>,
    class: usize,
    file: &ClassFile,
    slot: u32,
    selections: Selections,
) -> Result<LinkedClass, AllocError>
    requires sources { AreSources sources.now }
    requires stands { class_at sources.now.set.now class ≡ Some (file_of file.now) }
    requires begins { slot ≡ slots_before sources.now.set.now class }
    requires rising { AreRising selections.by_selector.items }
    ensures row { IfOk result (IsLinkedClass sources.now.set.now (file_of file.now)) }
    ensures selections { IfOk result (λ row. selections_of row ≡ selections) }
{
    let set = sources.set;
    Ok(LinkedClass {
        name: dotted_name(alloc, file)?,
        superclass: superclass_number(set, file),
        is_interface: set.is_interface(class_name(file)),
        is_cloneable: is_cloneable(sources.hierarchy, class_name(file)),
        fields: field_count(set, sources.fields, class, file),
        cells: cell_count(set, sources.fields, class, file),
        initialiser: initialiser_of(set, sources.methods, class, file),
        constants: constants_of(alloc, set, sources.texts, class, file, slot)?,
        selections: selections.by_place,
        interface_selections: selections.by_selector,
    })
}
