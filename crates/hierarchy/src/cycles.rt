//! Classes that are above themselves (JVMS 5.3.5).

ghost use Rattle.std.specs.Prelude.{◌≡◌, ◌-◌, length, option_map, position, true, Some, IfOk, IfSome};
ghost use Rattle.std.specs.Option.{option_to_list};
ghost use Rattle.std.specs.List.{list_any};
ghost use Rattle.class_tree.specs.View.{file_of};
ghost use Rattle.model.specs.Names.{name_eq};
ghost use Rattle.model.specs.Hierarchy.{is_above, in_cycle, direct_supertypes};
ghost use Rattle.model.specs.Classes.{classes_of, interface_names};
ghost use Rattle.hierarchy.specs.declared.rows.Above.TheVariants as above;
ghost use Rattle.hierarchy.specs.Above.{leads_to, rows_of};
ghost use Rattle.hierarchy.specs.Numbers.{named_rows};

use crate::components::{classes_below, ranks_with_cycles, ways_up};
use crate::name_table::NameTable;
use crate::ranks::{is_reached, never_rise, rank_of, ranked_order};
use crate::row::Row;
use crate::rows::{is_among, row_of, supertype_rows};
use crate::set::ClassSet;
use class_tree::{ClassFile, class_name, superclass_name};
use model::BUILT_IN_CLASSES;
use std::alloc::{AllocError, Global};

/// Whether a class has another one above it, by the rows of all that is above classes.
fn has_above(
    set: &ClassSet,
    names: &NameTable,
    supertypes: &[Row],
    class: &[u8],
    other: &[u8],
) -> bool
    requires { named_rows names.now supertypes.now
        ≡ rows_of set.now above.Supertypes (length (classes_of set.now) - 1) }
    ensures { result ≡ is_above set.now (length (classes_of set.now) - 1) class.now other.now }
{
    match row_of(set, supertypes, class) {
        Some(row) => is_among(names, row, other),
        None => false,
    }
}

/// Whether a class that is named is the other one, or has it above it.
fn leads_to(
    set: &ClassSet,
    names: &NameTable,
    supertypes: &[Row],
    name: Option<&[u8]>,
    other: &[u8],
) -> bool
    requires { named_rows names.now supertypes.now
        ≡ rows_of set.now above.Supertypes (length (classes_of set.now) - 1) }
    ensures { result ≡ list_any (leads_to set.now other.now) (option_to_list (option_map (λ t. t.now) name.entry)) }
{
    match name {
        Some(name) => name == other || has_above(set, names, supertypes, name, other),
        None => false,
    }
}

fn an_interface_leads_to(
    set: &ClassSet,
    names: &NameTable,
    supertypes: &[Row],
    file: &ClassFile,
    other: &[u8],
) -> bool
    requires { named_rows names.now supertypes.now
        ≡ rows_of set.now above.Supertypes (length (classes_of set.now) - 1) }
    ensures { result ≡ list_any (leads_to set.now other.now) (interface_names (file_of file.now)) }
{
    for index in &file.interfaces {
        if leads_to(set, names, supertypes, file.class_name(*index), other) {
            return true;
        }
    }
    false
}

/// Whether the class of a name is above itself.
fn is_above_itself(set: &ClassSet, names: &NameTable, supertypes: &[Row], class: &[u8]) -> bool
    requires { named_rows names.now supertypes.now
        ≡ rows_of set.now above.Supertypes (length (classes_of set.now) - 1) }
    ensures { result ≡ is_above set.now (length (classes_of set.now)) class.now class.now }
{
    let Some(file) = set.class_of(class) else {
        return false;
    };
    leads_to(set, names, supertypes, superclass_name(file), class)
        || an_interface_leads_to(set, names, supertypes, file, class)
}

/// The number of the first file whose class is above itself, by the rows of all that is above classes.
fn first_above_itself(set: &ClassSet, names: &NameTable, supertypes: &[Row]) -> Option<usize>
    requires { named_rows names.now supertypes.now
        ≡ rows_of set.now above.Supertypes (length (classes_of set.now) - 1) }
    ensures { result ≡ position (in_cycle set.now) set.now }
{
    for number in 0..set.count().saturating_sub(BUILT_IN_CLASSES) {
        let Some(file) = set.class_at(BUILT_IN_CLASSES + number) else {
            return None;
        };
        if is_above_itself(set, names, supertypes, class_name(file)) {
            return Some(number);
        }
    }
    None
}

/// Whether a name is there and is this one.
fn is_name(name: Option<&[u8]>, other: &[u8]) -> bool
    ensures { result ≡ list_any (λ s. name_eq s other.now) (option_to_list (option_map (λ t. t.now) name.entry)) }
{
    match name {
        Some(name) => name == other,
        None => false,
    }
}

fn has_interface(file: &ClassFile, interface: &[u8]) -> bool
    ensures { result ≡ list_any (λ s. name_eq s interface.now) (interface_names (file_of file.now)) }
{
    for index in &file.interfaces {
        if is_name(file.class_name(*index), interface) {
            return true;
        }
    }
    false
}

/// Whether the class of a name has another one directly above it.
fn is_directly_below(set: &ClassSet, class: &[u8], other: &[u8]) -> bool
    ensures { result ≡ list_any (λ s. name_eq s other.now) (direct_supertypes set.now class.now) }
{
    match set.class_of(class) {
        Some(file) => is_name(superclass_name(file), other) || has_interface(file, other),
        None => false,
    }
}

/// Whether a way up from a class leads back to it: for each class the place of one directly above it.
fn leads_back(set: &ClassSet, ways: &[usize], place: usize, class: &[u8]) -> bool
    ensures { result ≡ true → is_above set.now (length (classes_of set.now)) class.now class.now ≡ true }
{
    let mut lower = class;
    let mut place = place;
    for _step in 0..set.count() {
        let Some(next) = ways.get(place) else {
            return false;
        };
        let Some(file) = set.class_at(*next) else {
            return false;
        };
        let upper = class_name(file);
        if !is_directly_below(set, lower, upper) {
            return false;
        }
        if upper == class {
            return true;
        }
        lower = upper;
        place = *next;
    }
    false
}

/// The number of the first file whose class is above itself, where ranks show that none before it is and a way leads
/// back to its class. None says nothing.
fn first_led_back(alloc: Global, set: &ClassSet) -> Result<Option<usize>, AllocError>
    ensures { IfOk result (λ found. IfSome found (λ number. position (in_cycle set.now) set.now ≡ Some number)) }
{
    let below = classes_below(alloc, set)?;
    let found = ranks_with_cycles(alloc, set, &below)?;
    let ranks = found.as_slice();
    if !never_rise(set, ranks) {
        return Ok(None);
    }
    for number in 0..set.count().saturating_sub(BUILT_IN_CLASSES) {
        let place = BUILT_IN_CLASSES + number;
        let Some(file) = set.class_at(place) else {
            return Ok(None);
        };
        let class = class_name(file);
        let rank = rank_of(set, ranks, class);
        if is_reached(set, ranks, rank, class) {
            let ways = ways_up(alloc, &below, place)?;
            if leads_back(set, &ways, place, class) {
                return Ok(Some(number));
            }
            return Ok(None);
        }
    }
    Ok(None)
}

/// The number of the first file whose class is above itself (JVMS 5.3.5). Files are counted from 0.
///
/// Ranks and ways only spare the time to write down all that is above each class. What they show is checked, and
/// where they show nothing, that is done.
pub fn first_in_cycle(alloc: Global, set: &ClassSet) -> Result<Option<usize>, AllocError>
    ensures { IfOk result (λ found. found ≡ position (in_cycle set.now) set.now) }
{
    if let Some(_order) = ranked_order(alloc, set)? {
        return Ok(None);
    }
    if let Some(number) = first_led_back(alloc, set)? {
        return Ok(Some(number));
    }
    let names = NameTable::of_set(alloc, set)?;
    let supertypes = supertype_rows(alloc, set, &names)?;
    Ok(first_above_itself(set, &names, &supertypes))
}
