//! The classes that constant pools name, by their numbers.

ghost use Rattle.std.specs.Prelude.{◌≡◌, map, IfOk};
ghost use Rattle.std.specs.Option.{option_and_then};
ghost use Rattle.model.specs.Classes.{Program};
ghost use Rattle.model.specs.Pool.{class_name_at};
ghost use Rattle.classfile.specs.View.{file_of};
ghost use Rattle.hierarchy.specs.Places.{place_of};
ghost use Rattle.linker.specs.field_links.Numbers.{number_in, class_number, IsClassRow, AreClassNumbers};

use classfile::ClassFile;
use hierarchy::ClassSet;
use std::alloc::{AllocError, Global};
use std::marker::Model;

/// For each Class of the constant pools of a program's classes the number of the class that it names. Classes count
/// from 0, the built-in ones first, then those of the files in their order.
#[derive(Drop)]
pub struct ClassNumbers {
    /// For each class those that its constant pool names, by their index.
    rows: Vec<Vec<Option<usize>>>,
}

impl Model for ClassNumbers {
    ghost use Rattle.std.specs.Prelude.{List, Option, ℕ, map};

    ghost Value = { List (List (Option ℕ)) };

    ghost view = { λ s. map (λ row. row.items) s.rows.items };
}

/// The number of the class that the Class of an index names.
fn number_of(set: &ClassSet, file: &ClassFile, index: u16) -> Option<usize>
    ensures { result ≡ option_and_then (place_of set.now) (class_name_at file.now.pool index) }
{
    match file.class_name(index) {
        Some(name) => set.place_of(name),
        None => None,
    }
}

/// The numbers of the classes that a file names, by the index.
fn number_row(
    alloc: Global,
    set: &ClassSet,
    file: &ClassFile,
) -> Result<Vec<Option<usize>>, AllocError>
    ensures { IfOk result (λ row. IsClassRow set.now (file_of file.now) row.items) }
{
    let mut row = Vec::new(alloc);
    let indices = (file.pool.constants().len() + 1).min(0x1_0000);
    for index in 0..indices {
        row.push(number_of(set, file, index as u16))?;
    }
    Ok(row)
}

/// The numbers of the classes that each class names.
fn number_rows(alloc: Global, set: &ClassSet) -> Result<Vec<Vec<Option<usize>>>, AllocError>
    ensures { IfOk result (λ rows. AreClassNumbers set.now (map (λ row. row.items) rows.items)) }
{
    let mut rows = Vec::new(alloc);
    for place in 0..set.count() {
        let Some(file) = set.class_at(place) else {
            return Ok(rows);
        };
        rows.push(number_row(alloc, set, file)?)?;
    }
    Ok(rows)
}

/// What a row says of an index.
fn entry_of_row(row: &[Option<usize>], index: u16) -> Option<usize>
    ensures { result ≡ number_in row.now index }
{
    row.get(index as usize).copied().unwrap_or(None)
}

impl ClassNumbers {
    /// The numbers in a set of classes. This alone takes memory.
    pub fn new(alloc: Global, set: &ClassSet) -> Result<ClassNumbers, AllocError>
        ensures { IfOk result (λ numbers. AreClassNumbers set.now numbers) }
    {
        let rows = number_rows(alloc, set)?;
        Ok(ClassNumbers { rows })
    }

    /// The number of the class that the Class of an index names, in the constant pool of the class with a number.
    /// `None` where the index names no Class, and where it names an array type or a class that is not there.
    pub fn class_number(&self, class: usize, index: u16) -> Option<usize>
        ensures { (files : Program) → AreClassNumbers files self.now → result ≡ class_number files class index }
    {
        match self.rows.get(class) {
            Some(row) => entry_of_row(row, index),
            None => None,
        }
    }
}
