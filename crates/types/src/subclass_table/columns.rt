//! The classes that have columns.

ghost use Rattle.std.specs.Prelude.{◌≡◌, ◌++◌, ◌∷◌, [], ◌≤◌, ◌^◌, ◌==◌, ◌||◌, ◌<◌, ℕ, false, length, slice_index_or, IfOk, OnOk};
ghost use Rattle.types.specs.subclass_table.Columns.{AreMarks, AreColumns, column_in, column_for, class_for};

use std::alloc::{AllocError, Global};

/// The columns of a table, and the classes that they are of.
#[derive(Drop)]
pub(crate) struct Columns {
    /// For each class its column, where something is tested against it.
    pub by_class: Vec<Option<u16>>,
    /// For each column its class.
    pub classes: Vec<u16>,
}

/// The column of a class, if it has one.
pub(crate) fn column_at(columns: &[Option<u16>], class: usize) -> Option<u16>
    ensures { result ≡ column_in columns.now class }
{
    columns.get(class).copied().unwrap_or(None)
}

/// Marks a class, if it is among those that have marks.
fn mark(marks: &mut [bool], class: usize)
    ensures length { length marks.new ≡ length marks.old }
    ensures each { (other : ℕ) → other < length marks.old
        → slice_index_or marks.new other false ≡ (slice_index_or marks.old other false || class == other) }
{
    if class < marks.len() {
        marks[class] = true;
    }
}

/// For each of so many classes whether it is among the tested ones.
pub(crate) fn marks_of(alloc: Global, count: usize, tested: &[u16]) -> Result<Vec<bool>, AllocError>
    ensures { IfOk result (λ marks. AreMarks count tested.now marks.items) }
{
    let mut marks = Vec::new(alloc);
    marks.resize(count, false)?;
    for class in tested {
        mark(&mut marks, *class as usize);
    }
    Ok(marks)
}

/// Gives the next class a column, if something is tested against it.
fn add_class(columns: &mut Columns, class: u16, is_tested: bool) -> Result<(), AllocError>
    requires { length columns.now.classes.items ≤ class }
    ensures by_class { OnOk result (columns.new.by_class.items
        ≡ columns.old.by_class.items ++ column_for is_tested (length columns.old.classes.items) ∷ []) }
    ensures classes { OnOk result (columns.new.classes.items ≡ columns.old.classes.items ++ class_for is_tested class) }
{
    if is_tested {
        columns.by_class.push(Some(columns.classes.len() as u16))?;
        columns.classes.push(class)?;
    } else {
        columns.by_class.push(None)?;
    }
    Ok(())
}

/// The columns of the classes that are marked.
pub(crate) fn columns_of(alloc: Global, marks: &[bool]) -> Result<Columns, AllocError>
    requires { length marks.now ≤ 2 ^ 16 }
    ensures columns { IfOk result (λ columns. AreColumns marks.now columns.by_class.items columns.classes.items) }
    ensures few { IfOk result (λ columns. length columns.classes.items ≤ 2 ^ 16) }
{
    let mut columns = Columns {
        by_class: Vec::new(alloc),
        classes: Vec::new(alloc),
    };
    for class in 0..marks.len() {
        add_class(&mut columns, class as u16, marks[class])?;
    }
    Ok(columns)
}
