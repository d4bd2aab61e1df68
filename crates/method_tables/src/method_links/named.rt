//! The methods that invoking instructions name.

ghost use Rattle.std.specs.Prelude.{◌≡◌, [], None, Some, slice_index_or, IfOk};
ghost use Rattle.constant_pool.specs.View.{reference_of};
ghost use Rattle.model.specs.Classes.{Program};
ghost use Rattle.model.specs.Lookup.{find_method, find_interface_method};
ghost use Rattle.model.specs.Names.{Member};
ghost use Rattle.model.specs.Pool.{method_at, interface_method_at};
ghost use Rattle.model.specs.Tree.{FileTree};
ghost use Rattle.hierarchy.specs.Places.{class_at};
ghost use Rattle.method_tables.specs.method_links.Methods.{Names};
ghost use Rattle.method_tables.specs.method_links.Named.{named_in, AreNamedIn, AreNamedOf};
ghost use Rattle.method_tables.specs.method_links.Numbers.{AreNumbersOf};

use crate::method_links::numbers::MethodNumbers;
use classfile::{ClassFile, Reference};
use hierarchy::Hierarchy;
use std::alloc::{AllocError, Global};
use std::marker::Model;

/// The numbers of the methods that the entries of constant pools name.
#[derive(Drop)]
pub struct NamedMethods {
    /// By the place of a class, and the index of the entry of its pool.
    rows: Vec<Vec<Option<usize>>>,
}

impl Model for NamedMethods {
    ghost use Rattle.std.specs.Prelude.{ℕ, List, Option, map, vec_items};

    ghost Value = { List (List (Option ℕ)) };

    ghost view = { λ n. map vec_items n.rows.items };
}

/// The number of the method of a class that a reference names.
fn of_class(hierarchy: &Hierarchy, numbers: &MethodNumbers, method: Reference<'_>) -> Option<usize>
    requires { AreNumbersOf hierarchy.now numbers.now }
    ensures { Names hierarchy.now result (find_method hierarchy.now (reference_of method.entry)) }
{
    match hierarchy.find_method(method) {
        Some(place) => numbers.number_of(place),
        None => None,
    }
}

/// The number of the method of an interface that a reference names.
fn of_interface(
    hierarchy: &Hierarchy,
    numbers: &MethodNumbers,
    method: Reference<'_>,
) -> Option<usize>
    requires { AreNumbersOf hierarchy.now numbers.now }
    ensures { Names hierarchy.now result (find_interface_method hierarchy.now (reference_of method.entry)) }
{
    match hierarchy.find_interface_method(method) {
        Some(place) => numbers.number_of(place),
        None => None,
    }
}

/// The number of the method that the entry of an index names.
fn named_by_entry(
    hierarchy: &Hierarchy,
    numbers: &MethodNumbers,
    file: &ClassFile,
    index: u16,
) -> Option<usize>
    requires { AreNumbersOf hierarchy.now numbers.now }
    ensures { Names hierarchy.now result (named_in hierarchy.now file.now.pool index) }
{
    if let Some(method) = file.method_reference(index) {
        return of_class(hierarchy, numbers, method);
    }
    match file.interface_method_reference(index) {
        Some(method) => of_interface(hierarchy, numbers, method),
        None => None,
    }
}

/// The numbers of the methods that the entries of a pool name, by their index.
fn row_of(
    alloc: Global,
    hierarchy: &Hierarchy,
    numbers: &MethodNumbers,
    file: &ClassFile,
) -> Result<Vec<Option<usize>>, AllocError>
    requires { AreNumbersOf hierarchy.now numbers.now }
    ensures { IfOk result (λ row. AreNamedIn hierarchy.now file.now.pool row.items) }
{
    let mut row = Vec::new(alloc);
    let indices = (file.pool.constants().len() + 1).min(0x1_0000);
    for index in 0..indices {
        row.push(named_by_entry(hierarchy, numbers, file, index as u16))?;
    }
    Ok(row)
}

/// What stands at an index in a row.
fn number_in(row: &[Option<usize>], index: u16) -> Option<usize>
    ensures { result ≡ slice_index_or row.now index None }
{
    row.get(index as usize).copied().unwrap_or(None)
}

impl NamedMethods {
    /// The methods that the pools of all classes name. This alone takes memory.
    pub fn new(
        alloc: Global,
        hierarchy: &Hierarchy,
        numbers: &MethodNumbers,
    ) -> Result<NamedMethods, AllocError>
        requires { AreNumbersOf hierarchy.now numbers.now }
        ensures { IfOk result (AreNamedOf hierarchy.now) }
    {
        let set = hierarchy.set();
        let mut rows = Vec::new(alloc);
        for class in 0..set.count() {
            let Some(file) = set.class_at(class) else {
                return Ok(NamedMethods { rows });
            };
            rows.push(row_of(alloc, hierarchy, numbers, file)?)?;
        }
        Ok(NamedMethods { rows })
    }

    /// The row of the class at a place.
    fn row(&self, class: usize) -> &[Option<usize>]
        ensures { result.now ≡ slice_index_or self.now class [] }
    {
        match self.rows.get(class) {
            Some(row) => row.as_slice(),
            None => &[],
        }
    }

    /// The number of the method that the entry of an index names in the pool of the class at a place.
    pub fn named(&self, class: usize, index: u16) -> Option<usize>
        // A Methodref names a method of a class (JVMS 5.4.3.3).
        ensures method { (files : Program) → AreNamedOf files self.now → (file : FileTree)
            → class_at files class ≡ Some file
            → (m : Member) → method_at file.pool index ≡ Some m → Names files result (find_method files m) }
        // An InterfaceMethodref names a method of an interface (JVMS 5.4.3.4).
        ensures interface_method { (files : Program) → AreNamedOf files self.now → (file : FileTree)
            → class_at files class ≡ Some file
            → (m : Member) → interface_method_at file.pool index ≡ Some m
            → Names files result (find_interface_method files m) }
        // No other entry names a method.
        ensures other { (files : Program) → AreNamedOf files self.now → (file : FileTree)
            → class_at files class ≡ Some file
            → method_at file.pool index ≡ None → interface_method_at file.pool index ≡ None → result ≡ None }
    {
        number_in(self.row(class), index)
    }
}
