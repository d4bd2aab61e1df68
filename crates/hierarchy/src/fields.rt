//! Look-ups of fields (JVMS 5.4.3.2).

ghost use Rattle.std.specs.Prelude.{◌≡◌, ◌∷◌, ◌-◌, suc, length, true, not, slice_get, map, option_map, Some, IfSome, IfOk};
ghost use Rattle.std.specs.Option.{option_and_then, option_to_list};
ghost use Rattle.std.specs.List.{list_any};
ghost use Rattle.constant_pool.specs.View.{reference_of};
ghost use Rattle.class_tree.specs.View.{file_of};
ghost use Rattle.model.specs.Classes.{classes_of, interfaces_above};
ghost use Rattle.model.specs.Lookup.{first_found, field_in_class, find_field};
ghost use Rattle.hierarchy.specs.declared.rows.Above.TheVariants as above;
ghost use Rattle.hierarchy.specs.Above.{rows_of};
ghost use Rattle.hierarchy.specs.Numbers.{names_of, named_rows, HasNames};
ghost use Rattle.hierarchy.specs.Fields.{is_below_other, has_interface_below_other, SuperinterfacesAreFlat, HasSupertypes};
ghost use Rattle.hierarchy.specs.Ranks.{HasRanks};
ghost use Rattle.hierarchy.specs.Places.{place_of, name_at, member_in, IsFieldAt};
ghost use Rattle.hierarchy.specs.MembersAt.{first_near};

use crate::long_walks::a_walk_is_long;
use crate::name_table::{NameTable, place_by};
use crate::place::MemberPlace;
use crate::ranked_rows::ordered_supertype_rows;
use crate::row::Row;
use crate::rows::{row_at, row_of};
use crate::set::ClassSet;
use crate::sought::Sought;
use class_tree::{ClassFile, Reference};
use std::alloc::{AllocError, Global};

/// Whether a name is there whose class has a superclass, and that isn't Object.
fn is_below_other(set: &ClassSet, name: Option<&[u8]>) -> bool
    ensures { result ≡ list_any (is_below_other set.now) (option_to_list (option_map (λ t. t.now) name.entry)) }
{
    let Some(name) = name else {
        return false;
    };
    match set.superclass_of(name) {
        Some(superclass) => superclass != b"java/lang/Object".as_slice(),
        None => false,
    }
}

/// Whether a direct superinterface of a class has a superclass that isn't Object.
fn has_interface_below_other(set: &ClassSet, file: &ClassFile) -> bool
    ensures { result ≡ has_interface_below_other set.now (file_of file.now) }
{
    for index in &file.interfaces {
        if is_below_other(set, file.class_name(*index)) {
            return true;
        }
    }
    false
}

/// Whether no superinterface of any class has a superclass but Object.
pub(crate) fn superinterfaces_are_flat(set: &ClassSet) -> bool
    ensures { result ≡ not (list_any (has_interface_below_other set.now) (classes_of set.now)) }
{
    for place in 0..set.count() {
        let Some(file) = set.class_at(place) else {
            return true;
        };
        if has_interface_below_other(set, file) {
            return false;
        }
    }
    true
}

/// The rows of all supertypes, where members are sought in them. None where superinterfaces are flat and no walk along
/// superclasses is long.
pub(crate) fn rows_for_fields(
    alloc: Global,
    set: &ClassSet,
    names: &NameTable,
    order: &[usize],
    interfaces: &[Row],
    are_flat: bool,
) -> Result<Vec<Row>, AllocError>
    requires ranks { HasRanks set.now }
    requires names { HasNames set.now names.now }
    requires flat { are_flat ≡ true → SuperinterfacesAreFlat set.now }
    ensures { IfOk result (λ rows. HasSupertypes set.now (named_rows names.now rows.items)) }
{
    if are_flat && !a_walk_is_long(alloc, set, order, interfaces)? {
        Ok(Vec::new(alloc))
    } else {
        ordered_supertype_rows(alloc, set, names, order)
    }
}

/// The field that the class of the name of a number declares.
fn field_of(
    names: &NameTable,
    places: &[Option<usize>],
    sought: &Sought<'_>,
    number: u32,
) -> Option<MemberPlace>
    requires { places.now ≡ map (place_of sought.now.files) names.now }
    ensures found { option_map (λ p. member_in sought.now.files sought.now.member p) result
        ≡ option_and_then (field_in_class sought.now.files sought.now.member) (slice_get names.now number) }
    ensures place { IfSome result (IsFieldAt sought.now.files sought.now.member) }
{
    match place_by(places, number) {
        Some(place) => sought.field_at(place),
        None => None,
    }
}

/// The first of the names of a row whose class declares the field.
fn field_among(
    names: &NameTable,
    places: &[Option<usize>],
    row: &Row,
    sought: &Sought<'_>,
) -> Option<MemberPlace>
    requires { places.now ≡ map (place_of sought.now.files) names.now }
    ensures found { option_map (λ p. member_in sought.now.files sought.now.member p) result
        ≡ first_found (field_in_class sought.now.files sought.now.member) (names_of names.now row.now) }
    ensures place { IfSome result (IsFieldAt sought.now.files sought.now.member) }
{
    for place in 0..row.count() {
        let Some(number) = row.get(place) else {
            return None;
        };
        if let Some(found) = field_of(names, places, sought, number) {
            return Some(found);
        }
    }
    None
}

/// The field that the class at a place declares, else one of its superinterfaces without those of its superclasses.
fn field_near(
    names: &NameTable,
    places: &[Option<usize>],
    interfaces: &[Row],
    class: usize,
    sought: &Sought<'_>,
) -> Option<MemberPlace>
    requires rows { named_rows names.now interfaces.now
        ≡ rows_of sought.now.files above.Interfaces (suc (length (classes_of sought.now.files))) }
    requires places { places.now ≡ map (place_of sought.now.files) names.now }
    requires stood { place_of sought.now.files (name_at sought.now.files class) ≡ Some class }
    ensures found { option_map (λ p. member_in sought.now.files sought.now.member p) result
        ≡ first_near (field_in_class sought.now.files sought.now.member) sought.now.files
        (name_at sought.now.files class) }
    ensures place { IfSome result (IsFieldAt sought.now.files sought.now.member) }
{
    if let Some(found) = sought.field_at(class) {
        return Some(found);
    }
    match row_at(interfaces, class) {
        Some(row) => field_among(names, places, row, sought),
        None => None,
    }
}

/// The field that a symbolic reference names, sought in its class and the superclasses, each with its superinterfaces.
pub(crate) fn field_along_superclasses(
    set: &ClassSet,
    names: &NameTable,
    places: &[Option<usize>],
    interfaces: &[Row],
    field: Reference<'_>,
) -> Option<MemberPlace>
    requires rows { named_rows names.now interfaces.now
        ≡ rows_of set.now above.Interfaces (suc (length (classes_of set.now))) }
    requires places { places.now ≡ map (place_of set.now) names.now }
    requires along { SuperinterfacesAreFlat set.now }
    ensures found { option_map (λ p. member_in set.now (reference_of field.entry) p) result
        ≡ find_field set.now (reference_of field.entry) }
    ensures place { IfSome result (IsFieldAt set.now (reference_of field.entry)) }
{
    let Some(start) = set.place_of(field.class) else {
        return None;
    };
    let sought = set.sought(field);
    let mut class = start;
    for _step in 0..set.count() {
        if let Some(found) = field_near(names, places, interfaces, class, &sought) {
            return Some(found);
        }
        let Some(next) = set.superclass_place(class) else {
            return None;
        };
        class = next;
    }
    None
}

/// The field that a symbolic reference names, sought in its class and then in the row of all that is above it.
pub(crate) fn field_among_supertypes(
    set: &ClassSet,
    names: &NameTable,
    places: &[Option<usize>],
    supertypes: &[Row],
    field: Reference<'_>,
) -> Option<MemberPlace>
    requires places { places.now ≡ map (place_of set.now) names.now }
    requires rows { named_rows names.now supertypes.now
        ≡ rows_of set.now above.Supertypes (length (classes_of set.now) - 1) }
    ensures found { option_map (λ p. member_in set.now (reference_of field.entry) p) result
        ≡ find_field set.now (reference_of field.entry) }
    ensures place { IfSome result (IsFieldAt set.now (reference_of field.entry)) }
{
    if let Some(found) = set.declared_field(field) {
        return Some(found);
    }
    match row_of(set, supertypes, field.class) {
        Some(row) => field_among(names, places, row, &set.sought(field)),
        None => None,
    }
}
