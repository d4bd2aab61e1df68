//! Which method a call runs, by the class of its receiver (JVMS 6.5, invokevirtual).

ghost use Rattle.std.specs.Prelude.{◌≡◌, None, Some, slice_get, slice_index_or, IfOk};
ghost use Rattle.classfile.specs.View.{file_of};
ghost use Rattle.model.specs.Classes.{Program, name_of};
ghost use Rattle.model.specs.Lookup.{select};
ghost use Rattle.model.specs.Names.{Member};
ghost use Rattle.model.specs.Tree.{FileTree};
ghost use Rattle.hierarchy.specs.Places.{class_at};
ghost use Rattle.types.specs.method_code.Linked.{IsLinked};
ghost use Rattle.method_tables.specs.method_links.Methods.{methods_of, Names};
ghost use Rattle.method_tables.specs.method_links.Numbers.{AreNumbersOf};
ghost use Rattle.method_tables.specs.method_links.Selected.{AreSelectionsOf, declared_number, superclass_place, superclass_places};

use crate::method_links::declarations::{Declaration, declared_of, key_of};
use crate::method_links::numbers::MethodNumbers;
use crate::method_links::selectors::{Part, first_numbers};
use classfile::{ClassFile, class_name};
use hierarchy::ClassSet;
use indexmap::IndexMap;
use std::alloc::{AllocError, Global};
use std::marker::Model;

/// For each class the methods that calls on its objects run. A class has what it declares itself, and a look-up goes
/// through its superclasses, with one search in a hash table for each.
#[derive(Drop)]
pub struct SelectedMethods {
    /// For each method the number of the first of the same name.
    names: Vec<usize>,
    /// For each method the number of the first of the same descriptor.
    descriptors: Vec<usize>,
    /// For each class the place of its superclass.
    superclasses: Vec<Option<usize>>,
    /// The methods that classes declare, without static and private ones.
    declared: IndexMap<Declaration, usize>,
}

impl Model for SelectedMethods {
    ghost use Rattle.method_tables.specs.method_links.Selected.{SelectionTable};

    ghost Value = { SelectionTable };

    ghost view = { λ s. record {
      names = s.names.items;
      descriptors = s.descriptors.items;
      superclasses = s.superclasses.items;
      declared = s.declared.entries;
    } };
}

/// The place of the superclass of a class.
fn superclass_of(set: &ClassSet, file: &ClassFile) -> Option<usize>
    ensures { result ≡ superclass_place set.now (file_of file.now) }
{
    match set.superclass_of(class_name(file)) {
        Some(superclass) => set.place_of(superclass),
        None => None,
    }
}

/// For each class the place of its superclass.
fn superclasses_of(alloc: Global, set: &ClassSet) -> Result<Vec<Option<usize>>, AllocError>
    ensures { IfOk result (λ rows. rows.items ≡ superclass_places set.now) }
{
    let mut rows = Vec::new(alloc);
    for class in 0..set.count() {
        let Some(file) = set.class_at(class) else {
            return Ok(rows);
        };
        rows.push(superclass_of(set, file))?;
    }
    Ok(rows)
}

impl SelectedMethods {
    /// The methods that the classes of a set select. This alone takes memory.
    pub fn new(
        alloc: Global,
        set: &ClassSet,
        numbers: &MethodNumbers,
    ) -> Result<SelectedMethods, AllocError>
        requires linked { IsLinked set.now }
        requires numbers { AreNumbersOf set.now numbers.now }
        ensures { IfOk result (AreSelectionsOf set.now) }
    {
        let names = first_numbers(alloc, set, numbers, Part::Name)?;
        let descriptors = first_numbers(alloc, set, numbers, Part::Descriptor)?;
        let superclasses = superclasses_of(alloc, set)?;
        let declared = declared_of(alloc, set, numbers, &names, &descriptors)?;
        Ok(SelectedMethods {
            names,
            descriptors,
            superclasses,
            declared,
        })
    }

    /// The number of the method with the name and the descriptor of the one of a number that the class at a place
    /// itself declares, static and private ones aside. One search in a hash table; takes no memory.
    pub fn declared_by(&self, class: usize, method: usize) -> Option<usize>
        ensures { result ≡ declared_number self.now class method }
    {
        let key = key_of(&self.names, &self.descriptors, class, method);
        self.declared.get(&key).copied()
    }

    /// The place of the superclass of the class at a place. Takes no memory.
    pub fn superclass(&self, class: usize) -> Option<usize>
        ensures { result ≡ slice_index_or self.now.superclasses class None }
    {
        match self.superclasses.get(class) {
            Some(superclass) => *superclass,
            None => None,
        }
    }

    /// The number of the method that a receiver of the class at a place has in place of the method of a number: the
    /// nearest declaration from the class upwards that is neither static nor private, abstract or not. Takes no
    /// memory.
    pub fn selected(&self, class: usize, method: usize) -> Option<usize>
        ensures { (files : Program) → AreSelectionsOf files self.now
            → (file : FileTree) → class_at files class ≡ Some file
            → (m : Member) → slice_get (methods_of files) method ≡ Some m
            → Names files result (select files (name_of file) m) }
    {
        let mut class = class;
        for _step in 0..self.superclasses.len() {
            if let Some(number) = self.declared_by(class, method) {
                return Some(number);
            }
            let Some(superclass) = self.superclass(class) else {
                return None;
            };
            class = superclass;
        }
        None
    }
}
