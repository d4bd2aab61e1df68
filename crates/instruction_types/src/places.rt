//! Classes and members by their places.

ghost use Rattle.std.specs.Prelude.{◌≡◌, false, IsFalse};
ghost use Rattle.std.specs.Option.{option_map_or};
ghost use Rattle.model.specs.Linkable.{stands, DuplicateClass};
ghost use Rattle.model.specs.Lookup.{field_of, method_of};
ghost use Rattle.constant_pool.specs.View.{reference_of};
ghost use Rattle.hierarchy.specs.Places.{member_in, IsFieldAt, IsMethodAt};
ghost use Rattle.instruction_types.specs.Places.{IsPlaceOf, is_field_of_kind, is_method_of_kind};

use classfile::Reference;
use hierarchy::{ClassSet, MemberPlace};

/// The place of the class of a name.
pub fn place_of(set: &ClassSet, name: &[u8]) -> Option<usize>
    ensures { IsPlaceOf set.now name.now result }
{
    set.place_of(name)
}

/// Whether the field that is found at a place is static, or not, as is wanted.
pub fn is_field_of_kind(
    set: &ClassSet,
    field: Reference<'_>,
    found: MemberPlace,
    wants_static: bool,
) -> bool
    requires differ { IsFalse (stands set.now DuplicateClass) }
    requires there { IsFieldAt set.now (reference_of field) found }
    ensures { result ≡ option_map_or (is_field_of_kind wants_static)
        (field_of set.now (member_in set.now (reference_of field.entry) found)) false }
{
    let Some(class) = set.class_at(found.class) else {
        return false;
    };
    match class.fields.get(found.member) {
        Some(declared) => declared.is_static() == wants_static,
        None => false,
    }
}

/// Whether the method that is found at a place is static, or not, as is wanted.
pub fn is_method_of_kind(
    set: &ClassSet,
    method: Reference<'_>,
    found: MemberPlace,
    wants_static: bool,
) -> bool
    requires differ { IsFalse (stands set.now DuplicateClass) }
    requires there { IsMethodAt set.now (reference_of method) found }
    ensures { result ≡ option_map_or (is_method_of_kind wants_static)
        (method_of set.now (member_in set.now (reference_of method.entry) found)) false }
{
    let Some(class) = set.class_at(found.class) else {
        return false;
    };
    match class.methods.get(found.member) {
        Some(declared) => declared.is_static() == wants_static,
        None => false,
    }
}
