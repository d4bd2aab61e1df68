//! Look-ups that go through superinterfaces (JVMS 5.4.3).

ghost use Rattle.std.specs.Prelude.{◌≡◌, ◌-◌, length, slice_get, map, option_map, IfOk, IfSome};
ghost use Rattle.std.specs.Option.{option_and_then};
ghost use Rattle.std.specs.List.{list_any};
ghost use Rattle.model.specs.Names.{name_eq};
ghost use Rattle.constant_pool.specs.View.{reference_of};
ghost use Rattle.model.specs.ReferenceTypes.{is_subclass_or_implements};
ghost use Rattle.model.specs.Classes.{classes_of, interfaces_above, all_superinterfaces, implements};
ghost use Rattle.model.specs.Lookup.{method_in_class, any_method, first_found, searched_class, find_field, find_method, find_interface_method};
ghost use Rattle.hierarchy.specs.declared.rows.Above.TheVariants as above;
ghost use Rattle.hierarchy.specs.Above.{rows_of};
ghost use Rattle.hierarchy.specs.Fields.{SuperinterfacesAreFlat};
ghost use Rattle.hierarchy.specs.Numbers.{names_of, named_rows};
ghost use Rattle.hierarchy.specs.Places.{place_of, member_in, IsFieldAt, IsMethodAt};

use crate::fields::{field_along_superclasses, field_among_supertypes};
use crate::lookup::Wanted;
use crate::name_table::{NameTable, place_by};
use crate::named_rows::NamedRows;
use crate::place::MemberPlace;
use crate::row::Row;
use crate::rows::{is_among, row_of};
use crate::set::ClassSet;
use crate::sought::Sought;
use class_tree::Reference;
use std::alloc::{AllocError, Global};
use std::marker::Model;

/// A set of classes with the names of what is above each of them.
#[derive(Drop)]
pub struct Hierarchy {
    set: ClassSet,
    /// The names of its classes, and then of what stands directly above them.
    names: NameTable,
    /// The places of the classes of these names, by their numbers.
    places: Vec<Option<usize>>,
    /// For each class its direct superinterfaces and what is above these, without the superinterfaces of its
    /// superclass.
    interfaces: Vec<Row>,
    /// For each class all that is above it. Empty where look-ups go along superclasses.
    supertypes: Vec<Row>,
    /// No class is above itself, and no superinterface has a superclass but Object. False where that isn't known.
    superinterfaces_are_flat: bool,
}

impl Model for Hierarchy {
    ghost use Rattle.model.specs.Classes.{Program};
    ghost use Rattle.hierarchy.specs.Fields.{HasNamedRows};

    ghost Value = { Program };

    ghost view = { λ h. h.set };

    ghost invariant = { λ h. HasNamedRows h.set h.names h.places.items h.interfaces.items h.supertypes.items h.superinterfaces_are_flat };
}

/// The method that the class of the name of a number declares.
fn method_of(
    names: &NameTable,
    places: &[Option<usize>],
    sought: &Sought<'_>,
    number: u32,
) -> Option<MemberPlace>
    requires { places.now ≡ map (place_of sought.now.files) names.now }
    ensures found { option_map (λ p. member_in sought.now.files sought.now.member p) result
        ≡ option_and_then (method_in_class sought.now.files any_method sought.now.member) (slice_get names.now number) }
    ensures place { IfSome result (IsMethodAt sought.now.files sought.now.member) }
{
    match place_by(places, number) {
        Some(place) => sought.method_at(place, Wanted::Any),
        None => None,
    }
}

/// The first of the names of a row whose class declares the method.
fn method_among(
    names: &NameTable,
    places: &[Option<usize>],
    row: &Row,
    sought: &Sought<'_>,
) -> Option<MemberPlace>
    requires { places.now ≡ map (place_of sought.now.files) names.now }
    ensures found { option_map (λ p. member_in sought.now.files sought.now.member p) result
        ≡ first_found (method_in_class sought.now.files any_method sought.now.member) (names_of names.now row.now) }
    ensures place { IfSome result (IsMethodAt sought.now.files sought.now.member) }
{
    for place in 0..row.count() {
        let Some(number) = row.get(place) else {
            return None;
        };
        if let Some(found) = method_of(names, places, sought, number) {
            return Some(found);
        }
    }
    None
}

/// The row of all that is above a class, where none of these but superinterfaces can declare the method.
fn row_with_superinterfaces<'a>(
    set: &ClassSet,
    names: &NameTable,
    supertypes: &'a [Row],
    class: &[u8],
    method: Reference<'_>,
) -> Option<&'a Row>
    requires rows { named_rows names.now supertypes.now
        ≡ rows_of set.now above.Supertypes (length (classes_of set.now) - 1) }
    requires flat { SuperinterfacesAreFlat set.now }
    ensures { IfSome result (λ row.
        first_found (method_in_class set.now any_method (reference_of method.entry)) (names_of names.now row.now)
        ≡ first_found (method_in_class set.now any_method (reference_of method.entry))
        (all_superinterfaces set.now class.now)) }
{
    let object = b"java/lang/Object";
    if let Some(_declared) = set.method_in(object, method, Wanted::Any) {
        return None;
    }
    if let Some(_declared) = set.method_above(class, method, Wanted::Any) {
        return None;
    }
    row_of(set, supertypes, class)
}

/// The class whose methods those of a class or of an array are: an array has Object's (JVMS 2.4).
pub fn searched_class(class: &[u8]) -> &[u8]
    ensures { result.now ≡ searched_class class.now }
{
    match class {
        [b'[', ..] => b"java/lang/Object".as_slice(),
        _ => class,
    }
}

impl Hierarchy {
    /// The hierarchy of a set of classes. This alone takes memory.
    pub fn new(alloc: Global, set: ClassSet) -> Result<Hierarchy, AllocError>
        ensures { IfOk result (λ hierarchy. hierarchy ≡ set) }
    {
        let NamedRows {
            names,
            places,
            interfaces,
            supertypes,
            superinterfaces_are_flat,
        } = NamedRows::of_set(alloc, &set)?;
        Ok(Hierarchy {
            set,
            names,
            places,
            interfaces,
            supertypes,
            superinterfaces_are_flat,
        })
    }

    /// The set of its classes.
    pub fn set(&self) -> &ClassSet
        ensures { result.now ≡ self.now }
    {
        &self.set
    }

    fn has_interface_above(&self, class: &[u8], interface: &[u8]) -> bool
        ensures { result ≡ list_any (λ i. name_eq i interface.now) (interfaces_above self.now class.now) }
    {
        match row_of(&self.set, &self.interfaces, class) {
            Some(row) => is_among(&self.names, row, interface),
            None => false,
        }
    }

    /// Whether a class is the interface, or has it as a superinterface (JVMS 2.4). Takes no memory.
    pub fn implements(&self, class: &[u8], interface: &[u8]) -> bool
        ensures { result ≡ implements self.now class.now interface.now }
    {
        if class == interface {
            return true;
        }
        let mut class = class;
        for _step in 0..self.set.count() {
            if self.has_interface_above(class, interface) {
                return true;
            }
            let Some(next) = self.set.superclass_of(class) else {
                return false;
            };
            class = next;
        }
        false
    }

    fn method_in_interfaces_above(&self, class: &[u8], sought: &Sought<'_>) -> Option<MemberPlace>
        requires { sought.now.files ≡ self.now }
        ensures found { option_map (λ p. member_in self.now sought.now.member p) result
            ≡ first_found (method_in_class self.now any_method sought.now.member)
            (interfaces_above self.now class.now) }
        ensures place { IfSome result (IsMethodAt self.now sought.now.member) }
    {
        match row_of(&self.set, &self.interfaces, class) {
            Some(row) => method_among(&self.names, &self.places, row, sought),
            None => None,
        }
    }

    /// The method that one of all superinterfaces of a class declares, sought in the rows of the class and of its
    /// superclasses.
    fn method_along_superclasses(&self, class: &[u8], method: Reference<'_>) -> Option<MemberPlace>
        ensures found { option_map (λ p. member_in self.now (reference_of method.entry) p) result
            ≡ first_found (method_in_class self.now any_method (reference_of method.entry))
            (all_superinterfaces self.now class.now) }
        ensures place { IfSome result (IsMethodAt self.now (reference_of method.entry)) }
    {
        let sought = self.set.sought(method);
        let mut class = class;
        for _step in 0..self.set.count() {
            if let Some(found) = self.method_in_interfaces_above(class, &sought) {
                return Some(found);
            }
            let Some(next) = self.set.superclass_of(class) else {
                return None;
            };
            class = next;
        }
        None
    }

    /// The method that one of all superinterfaces of a class declares, the first of several.
    fn method_in_superinterfaces(&self, class: &[u8], method: Reference<'_>) -> Option<MemberPlace>
        ensures found { option_map (λ p. member_in self.now (reference_of method.entry) p) result
            ≡ first_found (method_in_class self.now any_method (reference_of method.entry))
            (all_superinterfaces self.now class.now) }
        ensures place { IfSome result (IsMethodAt self.now (reference_of method.entry)) }
    {
        if !self.superinterfaces_are_flat || self.supertypes.is_empty() {
            return self.method_along_superclasses(class, method);
        }
        match row_with_superinterfaces(&self.set, &self.names, &self.supertypes, class, method) {
            Some(row) => method_among(&self.names, &self.places, row, &self.set.sought(method)),
            None => self.method_along_superclasses(class, method),
        }
    }

    /// The method that a symbolic reference to a method of a class names (JVMS 5.4.3.3). Takes no memory.
    pub fn find_method(&self, method: Reference<'_>) -> Option<MemberPlace>
        ensures found { option_map (λ p. member_in self.now (reference_of method.entry) p) result
            ≡ find_method self.now (reference_of method.entry) }
        ensures place { IfSome result (IsMethodAt self.now (reference_of method.entry)) }
    {
        let class = searched_class(method.class);
        if let Some(found) = self.set.method_above(class, method, Wanted::Any) {
            return Some(found);
        }
        self.method_in_superinterfaces(class, method)
    }

    /// The method that a symbolic reference to a method of an interface names (JVMS 5.4.3.4). Takes no memory.
    pub fn find_interface_method(&self, method: Reference<'_>) -> Option<MemberPlace>
        ensures found { option_map (λ p. member_in self.now (reference_of method.entry) p) result
            ≡ find_interface_method self.now (reference_of method.entry) }
        ensures place { IfSome result (IsMethodAt self.now (reference_of method.entry)) }
    {
        if let Some(found) = self.set.declared_method(method) {
            return Some(found);
        }
        let object = b"java/lang/Object";
        if let Some(found) = self.set.method_in(object, method, Wanted::PublicInstance) {
            return Some(found);
        }
        self.method_in_superinterfaces(method.class, method)
    }

    /// The field that a symbolic reference names (JVMS 5.4.3.2). Takes no memory.
    pub fn find_field(&self, field: Reference<'_>) -> Option<MemberPlace>
        ensures found { option_map (λ p. member_in self.now (reference_of field.entry) p) result
            ≡ find_field self.now (reference_of field.entry) }
        ensures place { IfSome result (IsFieldAt self.now (reference_of field.entry)) }
    {
        if self.supertypes.is_empty() {
            field_along_superclasses(
                &self.set,
                &self.names,
                &self.places,
                &self.interfaces,
                field,
            )
        } else {
            field_among_supertypes(
                &self.set,
                &self.names,
                &self.places,
                &self.supertypes,
                field,
            )
        }
    }

    /// Whether a class is the other one or a subclass of it, or implements it (JVMS 2.4). Takes no memory.
    pub fn is_subclass_or_implements(&self, class: &[u8], other: &[u8]) -> bool
        ensures { result ≡ is_subclass_or_implements self.now class.now other.now }
    {
        self.set.is_subclass(class, other) || self.implements(class, other)
    }
}
