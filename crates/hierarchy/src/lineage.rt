//! Tables of how the classes of a set stand below their superclasses.

ghost use Rattle.std.specs.Prelude.{◌≡◌, ◌==◌, suc, true, IfOk};
ghost use Rattle.class_tree.specs.View.{file_of};
ghost use Rattle.hierarchy.specs.Lineages.{depth_in, superclass_in, skip_in, stands_at, is_root, is_skip, is_directly_below, has_lineage, HasLineages};

use crate::order::supertypes_first;
use crate::set::ClassSet;
use class_tree::{ClassFile, class_name, superclass_name};
use std::alloc::{AllocError, Global};

/// How a class stands below its superclasses.
#[derive(Clone, Copy)]
pub(crate) struct Lineage {
    /// How many there are.
    pub(crate) depth: usize,
    /// The place of the direct superclass; that of the class itself where it has none.
    pub(crate) superclass: usize,
    /// The place of one of its superclasses, to which a skip leads past those between; that of the class itself where
    /// it has none.
    pub(crate) skip: usize,
}

/// How many superclasses the class at a place has.
pub(crate) fn depth_in(table: &[Lineage], place: usize) -> usize
    ensures { result ≡ depth_in table.now place }
{
    match table.get(place) {
        Some(lineage) => lineage.depth,
        None => 0,
    }
}

/// The place of its direct superclass.
pub(crate) fn superclass_in(table: &[Lineage], place: usize) -> usize
    ensures { result ≡ superclass_in table.now place }
{
    match table.get(place) {
        Some(lineage) => lineage.superclass,
        None => place,
    }
}

/// The place that its skip leads to.
pub(crate) fn skip_in(table: &[Lineage], place: usize) -> usize
    ensures { result ≡ skip_in table.now place }
{
    match table.get(place) {
        Some(lineage) => lineage.skip,
        None => place,
    }
}

/// Where the skip of a class leads to, by its direct superclass: over the two skips from there on, where both pass as
/// many classes. So from any class some twice as many steps lead to any of its superclasses as the binary logarithm
/// of their number.
fn next_skip(table: &[Lineage], superclass: usize) -> usize {
    let first = skip_in(table, superclass);
    let second = skip_in(table, first);
    let middle = depth_in(table, first);
    let passed = depth_in(table, superclass).saturating_sub(middle);
    if passed == middle.saturating_sub(depth_in(table, second)) {
        second
    } else {
        superclass
    }
}

fn without_superclass(place: usize) -> Lineage {
    Lineage {
        depth: 0,
        superclass: place,
        skip: place,
    }
}

/// The lineage of the class at a place, by that of its direct superclass.
fn next_lineage(set: &ClassSet, table: &[Lineage], place: usize) -> Lineage {
    let Some(file) = set.class_at(place) else {
        return without_superclass(place);
    };
    let Some(name) = superclass_name(file) else {
        return without_superclass(place);
    };
    let Some(superclass) = set.place_of(name) else {
        return without_superclass(place);
    };
    Lineage {
        depth: depth_in(table, superclass).saturating_add(1),
        superclass,
        skip: next_skip(table, superclass),
    }
}

/// A table that is made in an order of the classes, each after its superclass. The order only spares time: nothing is
/// proved of this table, and it is checked.
fn table_in_order(
    alloc: Global,
    set: &ClassSet,
    order: &[usize],
) -> Result<Vec<Lineage>, AllocError> {
    let mut table = Vec::new(alloc);
    for place in 0..set.count() {
        table.push(without_superclass(place))?;
    }
    for place in order {
        let made = next_lineage(set, &table, *place);
        if let Some(lineage) = table.get_mut(*place) {
            *lineage = made;
        }
    }
    Ok(table)
}

/// Whether the class of a name stands at this place.
fn stands_at(set: &ClassSet, place: usize, name: &[u8]) -> bool
    ensures { result ≡ stands_at set.now place name.now }
{
    match set.place_of(name) {
        Some(found) => found == place,
        None => false,
    }
}

/// Whether the table has no superclass of the class at a place.
fn is_root(table: &[Lineage], place: usize) -> bool
    ensures { result ≡ is_root table.now place }
{
    depth_in(table, place) == 0 && skip_in(table, place) == place
}

/// Whether the skip of a class leads to its direct superclass, or from there over two skips.
fn is_skip(table: &[Lineage], place: usize, superclass: usize) -> bool
    ensures { result ≡ is_skip table.now place superclass }
{
    let skip = skip_in(table, place);
    skip == superclass || skip == skip_in(table, skip_in(table, superclass))
}

/// Whether a depth is one more than another.
fn is_one_deeper(depth: usize, other: usize) -> bool
    ensures { result ≡ (depth == suc other) }
{
    depth > 0 && depth - 1 == other
}

/// Whether the table has the class at a place right below the class of a name.
fn is_directly_below(set: &ClassSet, table: &[Lineage], place: usize, name: &[u8]) -> bool
    ensures { result ≡ is_directly_below set.now table.now place name.now }
{
    let superclass = superclass_in(table, place);
    if !stands_at(set, superclass, name) || superclass >= table.len() {
        return false;
    }
    is_one_deeper(depth_in(table, place), depth_in(table, superclass))
        && is_skip(table, place, superclass)
}

/// Whether what the table has of the class at a place is so.
fn has_lineage(set: &ClassSet, table: &[Lineage], place: usize, file: &ClassFile) -> bool
    ensures { result ≡ has_lineage set.now table.now place (file_of file.now) }
{
    if !stands_at(set, place, class_name(file)) || depth_in(table, place) >= set.count() {
        return false;
    }
    match superclass_name(file) {
        Some(name) => is_directly_below(set, table, place, name),
        None => is_root(table, place),
    }
}

/// Whether what the table has of each class is so.
fn have_lineages(set: &ClassSet, table: &[Lineage]) -> bool
    ensures { result ≡ true → HasLineages set.now table.now }
{
    for place in 0..table.len() {
        let Some(file) = set.class_at(place) else {
            return false;
        };
        if !has_lineage(set, table, place, file) {
            return false;
        }
    }
    true
}

/// The table of the classes of a set. It is empty where a superclass isn't found, or a class is above itself.
pub(crate) fn lineages(alloc: Global, set: &ClassSet) -> Result<Vec<Lineage>, AllocError>
    ensures { IfOk result (λ table. HasLineages set.now table.items) }
{
    let order = supertypes_first(alloc, set)?;
    let table = table_in_order(alloc, set, &order)?;
    if have_lineages(set, &table) {
        Ok(table)
    } else {
        Ok(Vec::new(alloc))
    }
}
