//! The rows of a class, by those of the classes directly above it.

ghost use Rattle.std.specs.Prelude.{◌≡◌, ◌+◌, ◌<◌, ◌||◌, ℕ, Bool, List, Option, true, length, slice_get, option_map, IfOk, IfSome};
ghost use Rattle.std.specs.Option.{option_and_then, option_to_list};
ghost use Rattle.std.specs.List.{list_any};
ghost use Rattle.classfile.specs.View.{file_of};
ghost use Rattle.hierarchy.specs.Places.{class_at};
ghost use Rattle.model.specs.Names.{Name};
ghost use Rattle.model.specs.Classes.{classes_of};
ghost use Rattle.types.specs.subclass_table.Rows.{IsRow, IsOwnRow, FitIn, FindOwnPlaces};
ghost use Rattle.types.specs.subclass_table.Settled.{IsSettled, EachOf, is_near};
ghost use Rattle.types.specs.subclass_table.Made.{IsMade, AreRowsAt, AreMade, IsNearRow, IsWithSuperclass};

use crate::subclass_table::bits::{add_row, clear_row, set_bit};
use crate::subclass_table::columns::column_at;
use classfile::{ClassFile, superclass_name};
use hierarchy::ClassSet;
use std::alloc::{AllocError, Global};

/// The rows of a class.
#[derive(Drop)]
pub(crate) struct ClassRows {
    /// The class itself, and what is above it by superinterfaces alone.
    pub near: Vec<u64>,
    /// The class itself, and all that is above it.
    pub below: Vec<u64>,
}

/// The rows of the class at a place, if they are made.
pub(crate) fn rows_at(made: &[Option<ClassRows>], place: usize) -> Option<&ClassRows>
    ensures { option_map (λ r. r.now) result ≡ option_and_then (λ rows. rows) (slice_get made.now place) }
{
    match made.get(place) {
        Some(rows) => rows.as_ref(),
        None => None,
    }
}

/// The rows of the class of a name, if they are made.
fn rows_of_name<'a>(
    set: &ClassSet,
    made: &'a [Option<ClassRows>],
    name: &[u8],
) -> Option<&'a ClassRows>
    ensures { (columns : List (Option ℕ)) (width steps : ℕ) → AreMade set.now columns width steps made.now
        → IfSome result (λ rows. IsMade set.now columns width steps name.now rows.now) }
{
    let Some(place) = set.place_of(name) else {
        return None;
    };
    rows_at(made, place)
}

/// Adds an interface and what is above it. Answers whether its rows are made.
fn add_interface(
    set: &ClassSet,
    made: &[Option<ClassRows>],
    near: &mut Vec<u64>,
    name: Option<&[u8]>,
) -> bool
    ensures wide { length near.new.items ≡ length near.old.items }
    ensures near { (columns : List (Option ℕ)) (steps : ℕ) (p : Name → Bool)
        → AreMade set.now columns (length near.old.items) steps made.now → IsRow set.now columns p near.old.items
        → result ≡ true
        → IsRow set.now columns (λ d. p d
        || list_any (λ i. is_near set.now i d) (option_to_list (option_map (λ t. t.now) name.entry)))
        near.new.items }
    ensures settled { (columns : List (Option ℕ)) (steps : ℕ)
        → AreMade set.now columns (length near.old.items) steps made.now
        → result ≡ true → EachOf (IsSettled set.now steps) (option_to_list (option_map (λ t. t.now) name.entry)) }
{
    let Some(name) = name else {
        return true;
    };
    match rows_of_name(set, made, name) {
        Some(rows) => {
            add_row(near, &rows.near);
            true
        }
        None => false,
    }
}

/// The row that has the class of a column alone.
fn own_row(
    alloc: Global,
    columns: &[Option<u16>],
    width: usize,
    place: usize,
) -> Result<Vec<u64>, AllocError>
    requires { FitIn columns.now width }
    ensures wide { IfOk result (λ row. length row.items ≡ width) }
    ensures own { IfOk result (λ row. IsOwnRow columns.now place row.items) }
{
    let mut row = clear_row(alloc, width)?;
    if let Some(column) = column_at(columns, place) {
        set_bit(&mut row, column as usize);
    }
    Ok(row)
}

/// The row of a class and what is above it by superinterfaces alone. None where the rows of one that is directly above
/// it aren't made.
fn near_row(
    alloc: Global,
    set: &ClassSet,
    columns: &[Option<u16>],
    width: usize,
    made: &[Option<ClassRows>],
    place: usize,
    file: &ClassFile,
) -> Result<Option<Vec<u64>>, AllocError>
    requires own { FindOwnPlaces set.now }
    requires fit { FitIn columns.now width }
    requires stands { class_at set.now place ≡ Some (file_of file.now) }
    ensures wide { IfOk result (λ row. IfSome row (λ row. length row.items ≡ width)) }
    ensures near { IfOk result (λ row. IfSome row (λ row. (steps : ℕ) → AreMade set.now columns.now width steps made.now
        → IsNearRow set.now columns.now steps (file_of file.now) row.items)) }
{
    let mut near = own_row(alloc, columns, width, place)?;
    for index in &file.interfaces {
        if !add_interface(set, made, &mut near, file.class_name(*index)) {
            return Ok(None);
        }
    }
    Ok(Some(near))
}

/// A row and what is above the superclass of a class. None where the rows of that one aren't made.
fn row_with_superclass(
    alloc: Global,
    set: &ClassSet,
    made: &[Option<ClassRows>],
    near: &[u64],
    file: &ClassFile,
) -> Result<Option<Vec<u64>>, AllocError>
    ensures wide { IfOk result (λ row. IfSome row (λ row. length row.items ≡ length near.now)) }
    ensures row { IfOk result (λ row. IfSome row (λ row. (columns : List (Option ℕ)) (steps : ℕ) (p : Name → Bool)
        → AreMade set.now columns (length near.now) steps made.now → IsRow set.now columns p near.now
        → IsWithSuperclass set.now columns steps (file_of file.now) p row.items)) }
{
    let mut below = Vec::from_slice(alloc, near)?;
    let Some(name) = superclass_name(file) else {
        return Ok(Some(below));
    };
    let Some(above) = rows_of_name(set, made, name) else {
        return Ok(None);
    };
    add_row(&mut below, &above.below);
    Ok(Some(below))
}

/// The rows of the class at a place. None where those of a class directly above it aren't made.
pub(crate) fn class_rows(
    alloc: Global,
    set: &ClassSet,
    columns: &[Option<u16>],
    width: usize,
    made: &[Option<ClassRows>],
    place: usize,
) -> Result<Option<ClassRows>, AllocError>
    requires own { FindOwnPlaces set.now }
    requires fit { FitIn columns.now width }
    ensures { IfOk result (λ rows. (steps : ℕ) → steps < length (classes_of set.now)
        → AreMade set.now columns.now width steps made.now
        → AreRowsAt set.now columns.now width (steps + 1) place rows) }
{
    let Some(file) = set.class_at(place) else {
        return Ok(None);
    };
    let Some(near) = near_row(alloc, set, columns, width, made, place, file)? else {
        return Ok(None);
    };
    let Some(below) = row_with_superclass(alloc, set, made, &near, file)? else {
        return Ok(None);
    };
    Ok(Some(ClassRows { near, below }))
}
