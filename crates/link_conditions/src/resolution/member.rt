//! The field or the method at a place.

ghost use Rattle.std.specs.Prelude.{◌≡◌, IsFalse, false, map};
ghost use Rattle.std.specs.List.{list_any};
ghost use Rattle.std.specs.Option.{option_map_or};
ghost use Rattle.model.specs.Names.{member_eq};
ghost use Rattle.model.specs.HiddenMembers.{is_hidden, is_hidden_method};
ghost use Rattle.model.specs.AccessFlags.{is_static_field, is_static_method};
ghost use Rattle.model.specs.Tree.{FieldTree, MethodTree};
ghost use Rattle.model.specs.Lookup.{field_of, method_of};
ghost use Rattle.model.specs.Linkable.{stands, DuplicateClass};
ghost use Rattle.model.specs.Resolution.{differs};
ghost use Rattle.constant_pool.specs.View.{reference_of};
ghost use Rattle.hierarchy.specs.Places.{member_in, IsFieldAt, IsMethodAt};

use crate::hidden_members::{HIDDEN_FIELDS, HIDDEN_METHODS};
use classfile::Reference;
use hierarchy::{ClassSet, MemberPlace};

/// Whether a flag is another one than is wanted.
fn differs(wanted: bool, found: bool) -> bool
    ensures { result ≡ differs wanted found }
{
    if wanted { !found } else { found }
}

/// Whether the field that is found at a place is static where an instance field is wanted, or the reverse.
pub(crate) fn is_field_of_other_kind(
    set: &ClassSet,
    field: Reference<'_>,
    place: MemberPlace,
    wants_static: bool,
) -> bool
    requires differ { IsFalse (stands set.now DuplicateClass) }
    requires at { IsFieldAt set.now (reference_of field) place }
    ensures { result ≡ option_map_or (λ (f : FieldTree). differs wants_static (is_static_field f))
        (field_of set.now (member_in set.now (reference_of field.entry) place)) false }
{
    let Some(class) = set.class_at(place.class) else {
        return false;
    };
    match class.fields.get(place.member) {
        Some(declared) => differs(wants_static, declared.is_static()),
        None => false,
    }
}

/// Whether the method that is found at a place is static where an instance method is wanted, or the reverse.
pub(crate) fn is_method_of_other_kind(
    set: &ClassSet,
    method: Reference<'_>,
    place: MemberPlace,
    wants_static: bool,
) -> bool
    requires differ { IsFalse (stands set.now DuplicateClass) }
    requires at { IsMethodAt set.now (reference_of method) place }
    ensures { result ≡ option_map_or (λ (m : MethodTree). differs wants_static (is_static_method m))
        (method_of set.now (member_in set.now (reference_of method.entry) place)) false }
{
    let Some(class) = set.class_at(place.class) else {
        return false;
    };
    match class.methods.get(place.member) {
        Some(declared) => differs(wants_static, declared.is_static()),
        None => false,
    }
}

/// Whether the field that is found at a place is this one.
pub(crate) fn is_field(
    set: &ClassSet,
    field: Reference<'_>,
    place: MemberPlace,
    wanted: Reference<'_>,
) -> bool
    ensures { result ≡ member_eq (reference_of wanted.entry) (member_in set.now (reference_of field.entry) place) }
{
    wanted.class == set.name_at(place.class)
        && wanted.name == field.name
        && wanted.descriptor == field.descriptor
}

/// Whether a member of a built-in class is the one that is found at a place.
fn is_found(
    set: &ClassSet,
    member: Reference<'_>,
    place: MemberPlace,
    wanted: Reference<'_>,
) -> bool
    ensures { result ≡ member_eq (member_in set.now (reference_of member.entry) place) (reference_of wanted.entry) }
{
    set.name_at(place.class) == wanted.class
        && member.name == wanted.name
        && member.descriptor == wanted.descriptor
}

/// Whether one of some members is the one that is found at a place.
fn is_among(
    set: &ClassSet,
    member: Reference<'_>,
    place: MemberPlace,
    all: &[Reference<'static>],
) -> bool
    ensures { result ≡ list_any (member_eq (member_in set.now (reference_of member.entry) place))
        (map reference_of all.now) }
{
    for wanted in all {
        if is_found(set, member, place, *wanted) {
            return true;
        }
    }
    false
}

/// Whether the field that is found at a place is hidden.
pub(crate) fn is_hidden_field(set: &ClassSet, field: Reference<'_>, place: MemberPlace) -> bool
    ensures { result ≡ is_hidden (member_in set.now (reference_of field.entry) place) }
{
    is_among(set, field, place, &HIDDEN_FIELDS)
}

/// Whether the method that is found at a place is hidden.
pub(crate) fn is_hidden_method(set: &ClassSet, method: Reference<'_>, place: MemberPlace) -> bool
    ensures { result ≡ is_hidden_method (member_in set.now (reference_of method.entry) place) }
{
    is_among(set, method, place, &HIDDEN_METHODS)
}
