//! For each class of a set the numbers of the names of what is above it.

ghost use Rattle.std.specs.Prelude.{◌≡◌, ◌∷◌, ◌-◌, [], map, suc, length, slice_get, option_map, IfOk, OnOk, true};
ghost use Rattle.std.specs.Option.{option_map_or, option_to_list};
ghost use Rattle.std.specs.List.{flat_map, list_any};
ghost use Rattle.class_tree.specs.View.{file_of};
ghost use Rattle.model.specs.Names.{name_eq};
ghost use Rattle.model.specs.Tree.{FileTree};
ghost use Rattle.model.specs.Classes.{classes_of, interface_names};
ghost use Rattle.hierarchy.specs.declared.rows.Above.TheVariants as above;
ghost use Rattle.hierarchy.specs.Above.{with_names, row_of, next_row, next_rows, rows_of};
ghost use Rattle.hierarchy.specs.Numbers.{names_of, named_rows, HasAll, HasNames};

use crate::name_table::NameTable;
use crate::number_set::NumberSet;
use crate::row::Row;
use crate::set::ClassSet;
use class_tree::{ClassFile, class_name, superclass_name};
use std::alloc::{AllocError, Global};

/// What stands directly above a class.
#[derive(Clone, Copy)]
pub(crate) enum Above {
    /// Its direct superinterfaces.
    Interfaces,
    /// Its direct superinterfaces, then its direct superclass.
    Supertypes,
}

/// The row of the class of a name.
pub(crate) fn row_of<'a>(set: &ClassSet, rows: &'a [Row], name: &[u8]) -> Option<&'a Row>
    ensures { option_map_or (λ row. row.now) result [] ≡ row_of set.now rows.now name.now }
{
    let Some(place) = set.place_of(name) else {
        return None;
    };
    rows.get(place)
}

/// The row of the class at a place.
pub(crate) fn row_at(rows: &[Row], place: usize) -> Option<&Row>
    ensures { option_map_or (λ row. row.now) result [] ≡ option_map_or (λ row. row) (slice_get rows.now place) [] }
{
    rows.get(place)
}

/// Whether a name is one of a row.
pub(crate) fn is_among(names: &NameTable, row: &Row, name: &[u8]) -> bool
    ensures { result ≡ list_any (name_eq name.now) (names_of names.now row.now) }
{
    if row.count() == 0 {
        return false;
    }
    match names.number_of(name) {
        Some(number) => row.contains(number),
        None => false,
    }
}

/// Adds a name and the names of its row.
fn add_with_row(
    set: &ClassSet,
    names: &NameTable,
    rows: &[Row],
    row: &mut NumberSet,
    name: &[u8],
) -> Result<(), AllocError>
    requires { list_any (name_eq name.now) names.now ≡ true }
    ensures { OnOk result (names_of names.now row.new ≡ with_names (names_of names.now row.old) (name.now
        ∷ row_of set.now (named_rows names.now rows.now) name.now)) }
{
    let Some(number) = names.number_of(name) else {
        return Ok(());
    };
    row.add(number)?;
    let Some(above) = row_of(set, rows, name) else {
        return Ok(());
    };
    row.add_all(above)
}

/// Adds a name that is there, and the names of its row.
fn add_named(
    set: &ClassSet,
    names: &NameTable,
    rows: &[Row],
    row: &mut NumberSet,
    name: Option<&[u8]>,
) -> Result<(), AllocError>
    requires { HasAll names.now (option_to_list (option_map (λ t. t.now) name)) }
    ensures { OnOk result (names_of names.now row.new ≡ with_names (names_of names.now row.old) (flat_map (λ n. n
        ∷ row_of set.now (named_rows names.now rows.now) n) (option_to_list (option_map (λ t. t.now) name.entry)))) }
{
    match name {
        Some(name) => add_with_row(set, names, rows, row, name),
        None => Ok(()),
    }
}

/// Adds the direct superinterfaces of a class and the names of their rows.
fn add_interfaces(
    set: &ClassSet,
    names: &NameTable,
    rows: &[Row],
    row: &mut NumberSet,
    file: &ClassFile,
) -> Result<(), AllocError>
    requires { HasAll names.now (interface_names (file_of file.now)) }
    ensures { OnOk result (names_of names.now row.new ≡ with_names (names_of names.now row.old) (flat_map (λ n. n
        ∷ row_of set.now (named_rows names.now rows.now) n) (interface_names (file_of file.now)))) }
{
    for index in &file.interfaces {
        add_named(set, names, rows, row, file.class_name(*index))?;
    }
    Ok(())
}

/// The row of a class, by the rows of what stands directly above it. It is made in a set of numbers.
pub(crate) fn row_above(
    alloc: Global,
    set: &ClassSet,
    names: &NameTable,
    rows: &[Row],
    row: &mut NumberSet,
    kind: Above,
    class: &[u8],
) -> Result<Row, AllocError>
    requires { HasNames set.now names.now }
    ensures { IfOk result (λ row.
        names_of names.now row ≡ next_row set.now kind (named_rows names.now rows.now) class.now) }
{
    row.clear();
    let Some(file) = set.class_of(class) else {
        return Ok(Row::empty(alloc));
    };
    add_interfaces(set, names, rows, row, file)?;
    match kind {
        Above::Interfaces => row.to_row(alloc),
        Above::Supertypes => {
            add_named(set, names, rows, row, superclass_name(file))?;
            row.to_row(alloc)
        }
    }
}

/// The rows within one step more.
pub(crate) fn rows_above(
    alloc: Global,
    set: &ClassSet,
    names: &NameTable,
    rows: &[Row],
    kind: Above,
) -> Result<Vec<Row>, AllocError>
    requires { HasNames set.now names.now }
    ensures { IfOk result (λ next.
        named_rows names.now next.items ≡ next_rows set.now kind (named_rows names.now rows.now)) }
{
    let mut next = Vec::new(alloc);
    let mut numbers = NumberSet::new(alloc, names.count())?;
    for place in 0..set.count() {
        let Some(class) = set.class_at(place) else {
            return Ok(next);
        };
        let row = row_above(
            alloc,
            set,
            names,
            rows,
            &mut numbers,
            kind,
            class_name(class),
        )?;
        next.push(row)?;
    }
    Ok(next)
}

/// Empty rows, one for each class.
pub(crate) fn empty_rows(alloc: Global, set: &ClassSet) -> Result<Vec<Row>, AllocError>
    ensures { IfOk result (λ rows. rows.items ≡ map (λ (file : FileTree). []) (classes_of set.now)) }
{
    let mut rows = Vec::new(alloc);
    for place in 0..set.count() {
        let Some(_class) = set.class_at(place) else {
            return Ok(rows);
        };
        rows.push(Row::empty(alloc))?;
    }
    Ok(rows)
}

fn are_same(rows: &[Row], others: &[Row]) -> bool
    ensures { result ≡ true → rows.now ≡ others.now }
{
    if rows.len() != others.len() {
        return false;
    }
    for place in 0..rows.len() {
        let Some(row) = rows.get(place) else {
            return false;
        };
        let Some(other) = others.get(place) else {
            return false;
        };
        if !row.is_same(other) {
            return false;
        }
    }
    true
}

/// For each class what is above it within so many steps. Stops where a further step changes nothing.
pub(crate) fn rows_within(
    alloc: Global,
    set: &ClassSet,
    names: &NameTable,
    kind: Above,
    steps: usize,
) -> Result<Vec<Row>, AllocError>
    requires { HasNames set.now names.now }
    ensures { IfOk result (λ rows. named_rows names.now rows.items ≡ rows_of set.now kind steps) }
{
    let mut rows = empty_rows(alloc, set)?;
    for _step in 0..steps {
        let next = rows_above(alloc, set, names, &rows, kind)?;
        if are_same(&rows, &next) {
            return Ok(rows);
        }
        rows = next;
    }
    Ok(rows)
}

/// For each class its superinterfaces without those of its superclasses, step by step.
pub(crate) fn interface_rows(
    alloc: Global,
    set: &ClassSet,
    names: &NameTable,
) -> Result<Vec<Row>, AllocError>
    requires { HasNames set.now names.now }
    ensures { IfOk result (λ rows. named_rows names.now rows.items
        ≡ rows_of set.now above.Interfaces (suc (length (classes_of set.now)))) }
{
    let near = rows_within(alloc, set, names, Above::Interfaces, set.count())?;
    rows_above(alloc, set, names, &near, Above::Interfaces)
}

/// For each class all that is above it, step by step.
pub(crate) fn supertype_rows(
    alloc: Global,
    set: &ClassSet,
    names: &NameTable,
) -> Result<Vec<Row>, AllocError>
    requires { HasNames set.now names.now }
    ensures { IfOk result (λ rows. named_rows names.now rows.items
        ≡ rows_of set.now above.Supertypes (length (classes_of set.now) - 1)) }
{
    rows_within(
        alloc,
        set,
        names,
        Above::Supertypes,
        set.count().saturating_sub(1),
    )
}
