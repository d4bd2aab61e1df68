//! The initialisers of classes (JVMS 2.9.2, 5.5).

ghost use Rattle.std.specs.Prelude.{◌≡◌, false, Some, is_some, map, option_map, slice_get, IfSome};
ghost use Rattle.std.specs.Option.{option_map_or};
ghost use Rattle.classfile.specs.View.{file_of, method_part_of};
ghost use Rattle.model.specs.Classes.{code_in, name_of};
ghost use Rattle.model.specs.Lookup.{any_method, method_in_class};
ghost use Rattle.model.specs.Names.{initialiser_of};
ghost use Rattle.hierarchy.specs.Places.{class_at, member_in, IsMethodAt};
ghost use Rattle.linker.specs.Linking.{IsLinked};
ghost use Rattle.linked_code.specs.ClassRows.{IsInitialiser};
ghost use Rattle.method_tables.specs.method_links.Numbers.{AreNumbersOf};

use crate::class_rows::numbers::method_number;
use classfile::{ClassFile, MethodAttribute, Reference, class_name};
use hierarchy::{ClassSet, MemberPlace};
use method_tables::method_links::MethodNumbers;

/// Whether there is a Code among attributes.
fn is_code_among(attributes: &[MethodAttribute]) -> bool
    ensures { result ≡ is_some (code_in (map method_part_of attributes.now)) }
{
    for attribute in attributes {
        if let MethodAttribute::Code { .. } = attribute {
            return true;
        }
    }
    false
}

/// Whether the method at a place among those of a class has code.
fn has_code(file: &ClassFile, member: usize) -> bool
    ensures { result ≡ option_map_or (λ m.
        is_some (code_in m.parts)) (slice_get (file_of file.now).methods member) false }
{
    match file.methods.get(member) {
        Some(method) => is_code_among(&method.attributes),
        None => false,
    }
}

/// Where a class declares its initialiser, with code or without.
fn declared_initialiser(set: &ClassSet, file: &ClassFile) -> Option<MemberPlace>
    ensures found { option_map (λ p. member_in set.now (initialiser_of (name_of (file_of file.now))) p) result
        ≡ method_in_class set.now any_method (initialiser_of (name_of (file_of file.now)))
        (name_of (file_of file.now)) }
    ensures place { IfSome result (IsMethodAt set.now (initialiser_of (name_of (file_of file.now)))) }
{
    set.declared_method(Reference {
        class: class_name(file),
        name: b"<clinit>",
        descriptor: b"()V",
    })
}

/// The number of the initialiser of the class of a number, where the class has one.
pub(crate) fn initialiser_of(
    set: &ClassSet,
    methods: &MethodNumbers,
    class: usize,
    file: &ClassFile,
) -> Option<u32>
    requires linked { IsLinked set.now }
    requires methods { AreNumbersOf set.now methods.now }
    requires stands { class_at set.now class ≡ Some (file_of file.now) }
    ensures { IsInitialiser set.now (name_of (file_of file.now)) result }
{
    let Some(place) = declared_initialiser(set, file) else {
        return None;
    };
    if has_code(file, place.member) {
        method_number(set, methods, place)
    } else {
        None
    }
}
