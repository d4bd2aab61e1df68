//! The slots of static fields, counted class by class.

ghost use Rattle.std.specs.Prelude.{◌≡◌, ◌+◌, ◌<◌, ◌^◌, Some, length, map};
ghost use Rattle.std.specs.List.{filter};
ghost use Rattle.classfile.specs.View.{field_of, file_of};
ghost use Rattle.model.specs.AccessFlags.{is_static_field};
ghost use Rattle.hierarchy.specs.Places.{class_at};
ghost use Rattle.linker.specs.Linking.{IsLinked};
ghost use Rattle.linker.specs.class_constants.Constants.{slots_before, slot_behind};

use classfile::{ClassFile, Field};
use hierarchy::ClassSet;
use model::BUILT_IN_CLASSES;

/// The slot behind that of a field, if the field is static; a field that isn't has none.
pub(crate) fn slot_behind(slot: u32, field: &Field) -> u32
    requires { slot + 1 < 2 ^ 32 }
    ensures { result ≡ slot_behind slot (is_static_field (field_of field.now)) }
{
    if field.is_static() { slot + 1 } else { slot }
}

/// The slot behind those of fields that stand in it and behind it.
fn slot_behind_all(slot: u32, fields: &[Field]) -> u32
    requires { slot + length fields.now < 2 ^ 32 }
    ensures { result ≡ slot + length (filter is_static_field (map field_of fields.now)) }
{
    let mut slot = slot;
    for field in fields {
        slot = slot_behind(slot, field);
    }
    slot
}

/// The slot of the first static field behind the class of a number, where the class's own begin at a slot. Slots count
/// from 0 over all files; the static fields of built-in classes have none.
pub fn next_slot(set: &ClassSet, class: usize, file: &ClassFile, slot: u32) -> u32
    requires linked { IsLinked set.now }
    requires stands { class_at set.now class ≡ Some (file_of file.now) }
    requires begins { slot ≡ slots_before set.now class }
    ensures { result ≡ slots_before set.now (class + 1) }
{
    if class < BUILT_IN_CLASSES {
        return slot;
    }
    slot_behind_all(slot, &file.fields)
}
