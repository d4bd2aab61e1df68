//! The slot of the field at a place.

ghost use Rattle.std.specs.Prelude.{◌≡◌, drop, map, option_map, slice_get};
ghost use Rattle.model.specs.Names.{Member};
ghost use Rattle.linker.specs.Linking.{IsLinked};
ghost use Rattle.hierarchy.specs.Places.{member_in, IsFieldAt};
ghost use Rattle.linker.specs.field_links.Links.{link_of};
ghost use Rattle.classfile.specs.View.{field_of, file_of};
ghost use Rattle.linker.specs.field_links.Slots.{static_slot, instance_slot, link_from, AreEnds};

use crate::field_links::count::{instance_count, static_count};
use crate::field_links::link::FieldLink;
use classfile::{ClassFile, Field};
use hierarchy::{ClassSet, MemberPlace};
use model::BUILT_IN_CLASSES;

/// Behind which slots the fields end that classes declare.
#[derive(Drop)]
pub(crate) struct Ends {
    /// For each class how many slots its objects have.
    pub instances: Vec<usize>,
    /// For each file how many static fields it and those before it declare.
    pub statics: Vec<usize>,
}

/// The field of a place among those that a class declares.
fn field_at(file: &ClassFile, member: usize) -> Option<&Field>
    ensures { option_map (λ f. field_of f.now) result ≡ slice_get (file_of file.now).fields member }
{
    file.fields.get(member)
}

/// The fields from a place on among those that a class declares.
fn fields_from(file: &ClassFile, member: usize) -> &[Field]
    ensures { map field_of result.now ≡ drop member (file_of file.now).fields }
{
    match file.fields.get(member..) {
        Some(fields) => fields,
        None => &[],
    }
}

/// The number at a place of a list.
fn number_at(numbers: &[usize], place: usize) -> Option<usize>
    ensures { result ≡ slice_get numbers.now place }
{
    numbers.get(place).copied()
}

/// The slot of a static field, where these are the fields of its class from it on.
fn static_slot(ends: &Ends, class: usize, fields: &[Field]) -> Option<usize>
    ensures { result ≡ static_slot ends.now class (map field_of fields.now) }
{
    if class < BUILT_IN_CLASSES {
        return None;
    }
    match number_at(&ends.statics, class - BUILT_IN_CLASSES) {
        Some(end) => Some(end.saturating_sub(static_count(fields))),
        None => None,
    }
}

/// The slot of an instance field, where these are the fields of its class from it on.
fn instance_slot(ends: &Ends, class: usize, fields: &[Field]) -> Option<usize>
    ensures { result ≡ instance_slot ends.now class (map field_of fields.now) }
{
    match number_at(&ends.instances, class) {
        Some(end) => Some(end.saturating_sub(instance_count(fields))),
        None => None,
    }
}

/// Where a field is, where these are the fields of its class from it on.
fn link_by(ends: &Ends, class: usize, field: &Field, fields: &[Field]) -> Option<FieldLink>
    ensures { result ≡ link_from ends.now class (field_of field.now) (map field_of fields.now) }
{
    if field.is_static() {
        match static_slot(ends, class, fields) {
            Some(slot) => Some(FieldLink::Static { class, slot }),
            None => None,
        }
    } else {
        match instance_slot(ends, class, fields) {
            Some(slot) => Some(FieldLink::Instance { class, slot }),
            None => None,
        }
    }
}

/// Where the field at a place is.
pub(crate) fn link_at(set: &ClassSet, ends: &Ends, place: MemberPlace) -> Option<FieldLink>
    requires linked { IsLinked set.now }
    requires ends { AreEnds set.now ends.now }
    ensures { (m : Member) → IsFieldAt set.now m place → result ≡ link_of set.now (member_in set.now m place) }
{
    let Some(file) = set.class_at(place.class) else {
        return None;
    };
    match field_at(file, place.member) {
        Some(field) => link_by(ends, place.class, field, fields_from(file, place.member)),
        None => None,
    }
}
