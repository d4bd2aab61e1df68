//! The field that an instruction names, by its number.
//!
//! # Proved
//!
//! - `field_at`: of linked class files, by the number of a method that has code and an offset there, the field that the
//!   instruction names, by the class that declares it and its place among that class's fields, and whether it is
//!   volatile; `None` exactly where the instruction names no field (`NamesField`).
//! - `names_are_apart`: no two classes of linked class files have one name, and no two fields (`AreApart` of
//!   `names_of`).
//!
//! # Wrong bodies
//!
//! - `named_fields-volatile-is-final`: another flag is read; refused by `is_volatile_at`.
//! - `named_fields-field-of-another-place`: the place before is told; refused by `named_field`.
//! - `named_fields-class-of-the-first`: the first class is told; refused by `named_field`.
//! - `variables-hidden_ones_are`: each field is a variable; refused by `is_variable`.

ghost use Rattle.std.specs.Prelude.{◌≡◌, IsFalse, option_map};
ghost use Rattle.model.specs.Linkable.{stands, DuplicateClass};
ghost use Rattle.model.specs.Lookup.{find_field};
ghost use Rattle.hierarchy.specs.Places.{IsFieldAt, member_in};
ghost use Rattle.data_races.specs.Variables.{declares_volatile};
ghost use Rattle.constant_pool.specs.View.{reference_of};
ghost use Rattle.types.specs.method_code.Linked.{IsLinked};
ghost use Rattle.types.specs.method_code.View as view;
ghost use Rattle.method_tables.specs.method_links.Numbers.{AreNumbersOf};
ghost use Rattle.race_places.specs.named_actions.Names.{AreApart};
ghost use Rattle.field_names.specs.named_fields.Fields.{IsFieldIf, NamesField, field_named, field_referred, names_of};

use crate::variables::is_variable;
use class_tree::Reference;
use class_tree::access_flags::has;
use code_places::method_of;
use hierarchy::{ClassSet, Hierarchy, MemberPlace};
use linker::Linked;
use method_tables::method_links::MethodNumbers;
use model::Instr;
use opcodes::decode_at;
use types::method_code::MethodCode;

/// ACC_VOLATILE (JVMS table 4.5-A; JLS 8.3.1.4).
const VOLATILE: u16 = 0x0040;

/// A field: the number of the class that declares it, its place among the fields of that class, whether it is
/// volatile, and whether it is a variable. Of the hidden fields a StringBuilder's text alone is one (own).
#[derive(Clone, Copy, PartialEq, Eq)]
pub struct NamedField {
    pub class: u16,
    pub field: u16,
    pub is_volatile: bool,
    pub is_variable: bool,
}

/// Whether the field that is found at a place is volatile.
fn is_volatile_at(set: &ClassSet, field: Reference<'_>, place: MemberPlace) -> bool
    requires differ { IsFalse (stands set.now DuplicateClass) }
    requires at { IsFieldAt set.now (reference_of field) place }
    ensures { result ≡ declares_volatile set.now (member_in set.now (reference_of field.entry) place) }
{
    let Some(class) = set.class_at(place.class) else {
        return false;
    };
    match class.fields.get(place.member) {
        Some(declared) => has(declared.flags, VOLATILE),
        None => false,
    }
}

/// The field that a symbolic reference names (JVMS 5.4.3.2).
pub(crate) fn named_field(hierarchy: &Hierarchy, field: Reference<'_>) -> Option<NamedField>
    requires { IsLinked hierarchy.now }
    ensures { IsFieldIf hierarchy.now (find_field hierarchy.now (reference_of field.entry)) result }
{
    let place = hierarchy.find_field(field)?;
    Some(NamedField {
        class: place.class as u16,
        field: place.member as u16,
        is_volatile: is_volatile_at(hierarchy.set(), field, place),
        is_variable: is_variable(hierarchy.set(), field, place),
    })
}

/// The reference to a field that the instruction at an offset has, if it has one.
fn reference_at<'a>(method: &'a MethodCode<'_>, offset: u16) -> Option<Reference<'a>>
    ensures { option_map reference_of result ≡ field_referred (view.body_of method.now) offset }
{
    match decode_at(&method.code().code, usize::from(offset))? {
        Instr::Field { index, .. } => method.file().field_reference(index),
        _ => None,
    }
}

/// The field that the instruction at an offset of a method names, by the number of the method, if it names one.
pub fn field_at(
    linked: &Linked,
    numbers: &MethodNumbers,
    method: u32,
    offset: u16,
) -> Option<NamedField>
    requires { AreNumbersOf linked.now numbers.now }
    ensures { NamesField linked.now method offset result }
{
    let Some(method) = method_of(linked, numbers, method as usize) else {
        return None;
    };
    match reference_at(&method, offset) {
        Some(reference) => named_field(linked.hierarchy(), reference),
        None => None,
    }
}

/// No two classes of linked class files have one name, and no two fields.
pub fn names_are_apart(linked: &Linked)
    ensures { AreApart (names_of linked.now) }
{
    let _ = linked.hierarchy();
}
