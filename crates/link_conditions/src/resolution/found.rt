//! The field or the method that an operand names.

ghost use Rattle.std.specs.Prelude.{◌≡◌, option_map, IfSome};
ghost use Rattle.std.specs.Option.{option_and_then};
ghost use Rattle.model.specs.Pool.{field_at};
ghost use Rattle.model.specs.CodeParts.{method_operand};
ghost use Rattle.model.specs.Lookup.{find_field};
ghost use Rattle.model.specs.Resolution.{found_in_class, found_method};
ghost use Rattle.constant_pool.specs.View.{reference_of};
ghost use Rattle.hierarchy.specs.Places.{member_in, IsFieldAt, IsMethodAt};
ghost use Rattle.link_conditions.specs.resolution.Found.{FindsField, FindsMethod};

use classfile::{ClassFile, Reference};
use hierarchy::{Hierarchy, MemberPlace};
use model::Instr;

/// The field that the Fieldref of an index names (JVMS 5.4.3.2), by its place. `None` where the index has no
/// Fieldref, and where the field is not found.
pub fn found_field(hierarchy: &Hierarchy, file: &ClassFile, index: u16) -> Option<MemberPlace>
    ensures { FindsField hierarchy.now (field_at file.now.pool index)
        (option_and_then (find_field hierarchy.now) (field_at file.now.pool index)) result }
{
    match file.field_reference(index) {
        Some(field) => hierarchy.find_field(field),
        None => None,
    }
}

/// The method that a Methodref names: a constructor in the class that is named itself.
pub(crate) fn found_in_class(hierarchy: &Hierarchy, method: Reference<'_>) -> Option<MemberPlace>
    ensures found { option_map (λ p. member_in hierarchy.now (reference_of method.entry) p) result
        ≡ found_in_class hierarchy.now (reference_of method.entry) }
    ensures place { IfSome result (IsMethodAt hierarchy.now (reference_of method.entry)) }
{
    if method.name == b"<init>".as_slice() {
        hierarchy.set().declared_method(method)
    } else {
        hierarchy.find_method(method)
    }
}

/// The method that a call names (JVMS 5.4.3.3, 5.4.3.4), by its place: a constructor in the class that is named
/// itself. `None` for another instruction, where its index has no Methodref or no InterfaceMethodref, as it wants,
/// and where the method is not found.
pub fn found_method(
    hierarchy: &Hierarchy,
    file: &ClassFile,
    instruction: &Instr,
) -> Option<MemberPlace>
    ensures { FindsMethod hierarchy.now (method_operand file.now.pool instruction.now)
        (found_method hierarchy.now file.now.pool instruction.now) result }
{
    match *instruction {
        Instr::Invoke { index, .. } => match file.method_reference(index) {
            Some(method) => found_in_class(hierarchy, method),
            None => None,
        },
        Instr::InvokeInterface { index, .. } => match file.interface_method_reference(index) {
            Some(method) => hierarchy.find_interface_method(method),
            None => None,
        },
        _ => None,
    }
}
