//! Numbers of classes and methods, and how many fields objects have.

ghost use Rattle.std.specs.Prelude.{◌≡◌, ℕ, Some, filter, length, IsSomeAnd};
ghost use Rattle.std.specs.Option.{option_and_then};
ghost use Rattle.classfile.specs.View.{file_of};
ghost use Rattle.model.specs.Classes.{name_of, super_name_of};
ghost use Rattle.model.specs.HiddenMembers.{is_cell};
ghost use Rattle.model.specs.Lookup.{instance_fields};
ghost use Rattle.model.specs.Names.{Member};
ghost use Rattle.hierarchy.specs.Places.{class_at, place_of};
ghost use Rattle.linker.specs.Linking.{IsLinked};
ghost use Rattle.linked_code.specs.Numbers.{IsMethodAt};
ghost use Rattle.linker.specs.field_links.Tables.{AreFieldLinks};
ghost use Rattle.method_tables.specs.method_links.Methods.{member_at};
ghost use Rattle.method_tables.specs.method_links.Numbers.{AreNumbersOf};

use classfile::ClassFile;
use hierarchy::{ClassSet, MemberPlace};
use linker::field_links::FieldLinks;
use method_tables::method_links::MethodNumbers;

/// The number of the class of a name.
fn number_of(set: &ClassSet, name: &[u8]) -> Option<u16>
    requires { IsLinked set.now }
    ensures { result ≡ place_of set.now name.now }
{
    match set.place_of(name) {
        Some(place) => Some(place as u16),
        None => None,
    }
}

/// The number of the superclass of a class.
pub(crate) fn superclass_number(set: &ClassSet, file: &ClassFile) -> Option<u16>
    requires { IsLinked set.now }
    ensures { result ≡ option_and_then (place_of set.now) (super_name_of (file_of file.now)) }
{
    match file.class_name(file.super_class) {
        Some(name) => number_of(set, name),
        None => None,
    }
}

/// The number of the method at a place.
pub(crate) fn method_number(
    set: &ClassSet,
    methods: &MethodNumbers,
    place: MemberPlace,
) -> Option<u32>
    requires linked { IsLinked set.now }
    requires methods { AreNumbersOf set.now methods.now }
    ensures { (m : Member) → member_at set.now place ≡ Some m
        → IsSomeAnd result (λ number. IsMethodAt set.now number m) }
{
    match methods.number_of(place) {
        Some(number) => Some(number as u32),
        None => None,
    }
}

/// How many fields the objects of the class of a number have.
pub(crate) fn field_count(
    set: &ClassSet,
    fields: &FieldLinks,
    class: usize,
    file: &ClassFile,
) -> u32
    requires linked { IsLinked set.now }
    requires fields { AreFieldLinks set.now fields.now }
    requires stands { class_at set.now class ≡ Some (file_of file.now) }
    ensures { result ≡ length (instance_fields set.now (name_of (file_of file.now))) }
{
    match fields.slot_count(class) {
        Some(count) => count as u32,
        None => 0,
    }
}

/// How many of these fields count for the limit on cells.
pub(crate) fn cell_count(set: &ClassSet, fields: &FieldLinks, class: usize, file: &ClassFile) -> u32
    requires linked { IsLinked set.now }
    requires fields { AreFieldLinks set.now fields.now }
    requires stands { class_at set.now class ≡ Some (file_of file.now) }
    ensures { result ≡ length (filter is_cell (instance_fields set.now (name_of (file_of file.now)))) }
{
    match fields.cell_count(class) {
        Some(count) => count as u32,
        None => 0,
    }
}
