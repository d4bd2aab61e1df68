//! Rows of what is above classes, each made once.

ghost use Rattle.std.specs.Prelude.{◌≡◌, ◌-◌, suc, length, true, IfOk};
ghost use Rattle.model.specs.Classes.{classes_of};
ghost use Rattle.hierarchy.specs.declared.rows.Above.TheVariants as above;
ghost use Rattle.hierarchy.specs.Above.{next_rows, rows_of};
ghost use Rattle.hierarchy.specs.Numbers.{named_rows, HasNames};
ghost use Rattle.hierarchy.specs.Ranks.{HasRanks};

use crate::name_table::NameTable;
use crate::number_set::NumberSet;
use crate::row::Row;
use crate::rows::{Above, empty_rows, interface_rows, row_above, supertype_rows};
use crate::set::ClassSet;
use class_tree::class_name;
use std::alloc::{AllocError, Global};

/// Rows made one after the other by those that are made. The order only spares time: nothing is proved of these rows,
/// and they are checked.
fn rows_in_order(
    alloc: Global,
    set: &ClassSet,
    names: &NameTable,
    order: &[usize],
    kind: Above,
) -> Result<Vec<Row>, AllocError>
    requires { HasNames set.now names.now }
{
    let mut rows = empty_rows(alloc, set)?;
    let mut numbers = NumberSet::new(alloc, names.count())?;
    for place in order {
        let Some(class) = set.class_at(*place) else {
            return Ok(rows);
        };
        let made = row_above(
            alloc,
            set,
            names,
            &rows,
            &mut numbers,
            kind,
            class_name(class),
        )?;
        if let Some(row) = rows.get_mut(*place) {
            *row = made;
        }
    }
    Ok(rows)
}

/// Whether one step more changes no row.
fn are_settled(
    alloc: Global,
    set: &ClassSet,
    names: &NameTable,
    rows: &[Row],
    kind: Above,
) -> Result<bool, AllocError>
    requires { HasNames set.now names.now }
    ensures { IfOk result (λ settled. settled ≡ true
        → next_rows set.now kind (named_rows names.now rows.now) ≡ named_rows names.now rows.now) }
{
    if rows.len() != set.count() {
        return Ok(false);
    }
    let mut numbers = NumberSet::new(alloc, names.count())?;
    for place in 0..set.count() {
        let Some(class) = set.class_at(place) else {
            return Ok(false);
        };
        let Some(row) = rows.get(place) else {
            return Ok(false);
        };
        let next = row_above(
            alloc,
            set,
            names,
            rows,
            &mut numbers,
            kind,
            class_name(class),
        )?;
        if !next.is_same(row) {
            return Ok(false);
        }
    }
    Ok(true)
}

/// For each class its superinterfaces without those of its superclasses, by an order of the classes.
pub(crate) fn ordered_interface_rows(
    alloc: Global,
    set: &ClassSet,
    names: &NameTable,
    order: &[usize],
) -> Result<Vec<Row>, AllocError>
    requires ranks { HasRanks set.now }
    requires names { HasNames set.now names.now }
    ensures { IfOk result (λ rows. named_rows names.now rows.items
        ≡ rows_of set.now above.Interfaces (suc (length (classes_of set.now)))) }
{
    let rows = rows_in_order(alloc, set, names, order, Above::Interfaces)?;
    if are_settled(alloc, set, names, &rows, Above::Interfaces)? {
        Ok(rows)
    } else {
        interface_rows(alloc, set, names)
    }
}

/// For each class all that is above it, by an order of the classes.
pub(crate) fn ordered_supertype_rows(
    alloc: Global,
    set: &ClassSet,
    names: &NameTable,
    order: &[usize],
) -> Result<Vec<Row>, AllocError>
    requires ranks { HasRanks set.now }
    requires names { HasNames set.now names.now }
    ensures { IfOk result (λ rows. named_rows names.now rows.items
        ≡ rows_of set.now above.Supertypes (length (classes_of set.now) - 1)) }
{
    let rows = rows_in_order(alloc, set, names, order, Above::Supertypes)?;
    if are_settled(alloc, set, names, &rows, Above::Supertypes)? {
        Ok(rows)
    } else {
        supertype_rows(alloc, set, names)
    }
}
