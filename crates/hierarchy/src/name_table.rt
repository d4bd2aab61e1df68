//! The names of classes, superclasses and interfaces, each with a number.

ghost use Rattle.std.specs.Prelude.{◌≡◌, [], length, slice_get, position, map, option_map, OnOk, IfOk};
ghost use Rattle.std.specs.Option.{option_to_list};
ghost use Rattle.std.specs.List.{flat_map};
ghost use Rattle.class_tree.specs.View.{file_of};
ghost use Rattle.model.specs.Names.{name_eq};
ghost use Rattle.model.specs.Classes.{name_of, classes_of, interface_names};
ghost use Rattle.hierarchy.specs.Above.{with_name, with_names};
ghost use Rattle.hierarchy.specs.Numbers.{AreApart, HasNames, direct_names, place_by};
ghost use Rattle.hierarchy.specs.Places.{place_of};

use crate::set::ClassSet;
use class_tree::{ClassFile, class_name, superclass_name};
use indexmap::IndexSet;
use std::alloc::{AllocError, Global};
use std::marker::Model;

/// How many names a table may have, at most.
const MOST_NAMES: usize = 0x1_0000_0000;

/// Names, each once. The number of a name is its place among them.
#[derive(Drop)]
pub(crate) struct NameTable {
    names: IndexSet<Vec<u8>>,
}

impl Model for NameTable {
    ghost use Rattle.std.specs.Prelude.{◌≤◌, List, map, length};
    ghost use Rattle.model.specs.Names.{Name};

    ghost Value = { List Name };

    ghost view = { λ s. map (λ name. name.items) s.names.keys };

    ghost invariant = { λ s. length s.names.keys ≤ 4294967296 };
}

/// Adds a name that is there to a table.
fn add_named(alloc: Global, names: &mut NameTable, name: Option<&[u8]>) -> Result<(), AllocError>
    ensures { OnOk result (names.new ≡ with_names names.old (option_to_list (option_map (λ t. t.now) name.entry))) }
{
    match name {
        Some(name) => names.add(alloc, name),
        None => Ok(()),
    }
}

/// Adds the names of the direct superinterfaces of a class.
fn add_interfaces(alloc: Global, names: &mut NameTable, file: &ClassFile) -> Result<(), AllocError>
    ensures { OnOk result (names.new ≡ with_names names.old (interface_names (file_of file.now))) }
{
    for index in &file.interfaces {
        add_named(alloc, names, file.class_name(*index))?;
    }
    Ok(())
}

/// Adds the names of what stands directly above a class.
fn add_direct(alloc: Global, names: &mut NameTable, file: &ClassFile) -> Result<(), AllocError>
    ensures { OnOk result (names.new ≡ with_names names.old (direct_names (file_of file.now))) }
{
    add_interfaces(alloc, names, file)?;
    add_named(alloc, names, superclass_name(file))
}

/// Adds the names of the classes of a set, in their order.
fn add_classes(alloc: Global, names: &mut NameTable, set: &ClassSet) -> Result<(), AllocError>
    ensures { OnOk result (names.new ≡ with_names names.old (map name_of (classes_of set.now))) }
{
    for place in 0..set.count() {
        let Some(file) = set.class_at(place) else {
            return Ok(());
        };
        names.add(alloc, class_name(file))?;
    }
    Ok(())
}

/// Adds the names of what stands directly above the classes of a set.
fn add_supertypes(alloc: Global, names: &mut NameTable, set: &ClassSet) -> Result<(), AllocError>
    ensures { OnOk result (names.new ≡ with_names names.old (flat_map direct_names (classes_of set.now))) }
{
    for place in 0..set.count() {
        let Some(file) = set.class_at(place) else {
            return Ok(());
        };
        add_direct(alloc, names, file)?;
    }
    Ok(())
}

/// The place of the class of the name of a number, by the places of all; none for a name of no class.
pub(crate) fn place_by(places: &[Option<usize>], number: u32) -> Option<usize>
    ensures { result ≡ place_by places.now number }
{
    match places.get(number as usize) {
        Some(place) => *place,
        None => None,
    }
}

impl NameTable {
    /// The names of the classes of a set, in their order, and then those of what stands directly above them. No
    /// number is above 0xffff_ffff: so many names are answered as a want of memory.
    pub(crate) fn of_set(alloc: Global, set: &ClassSet) -> Result<NameTable, AllocError>
        ensures { IfOk result (λ names. HasNames set.now names) }
    {
        let mut names = NameTable {
            names: IndexSet::new(alloc),
        };
        add_classes(alloc, &mut names, set)?;
        add_supertypes(alloc, &mut names, set)?;
        Ok(names)
    }

    /// How many names there are.
    pub(crate) fn count(&self) -> usize
        ensures { result ≡ length self.now }
    {
        self.names.len()
    }

    /// The name of a number.
    fn get(&self, number: usize) -> Option<&[u8]>
        ensures { option_map (λ t. t.now) result ≡ slice_get self.now number }
    {
        match self.names.get_index(number) {
            Some(name) => Some(name.as_slice()),
            None => None,
        }
    }

    /// The places of the classes of the names, by their numbers; none for a name of no class.
    pub(crate) fn places(
        &self,
        alloc: Global,
        set: &ClassSet,
    ) -> Result<Vec<Option<usize>>, AllocError>
        ensures { IfOk result (λ places. places.items ≡ map (place_of set.now) self.now) }
    {
        let mut places = Vec::new(alloc);
        for number in 0..self.count() {
            let Some(name) = self.get(number) else {
                return Ok(places);
            };
            places.push(set.place_of(name))?;
        }
        Ok(places)
    }

    /// The number of a name.
    pub(crate) fn number_of(&self, name: &[u8]) -> Option<u32>
        ensures number { result ≡ position (name_eq name.now) self.now }
        ensures apart { AreApart self.now }
    {
        let _count = self.names.len();
        match self.names.get_index_of(name) {
            Some(place) => Some(place as u32),
            None => None,
        }
    }

    /// Adds a name, unless it is there.
    fn add(&mut self, alloc: Global, name: &[u8]) -> Result<(), AllocError>
        ensures { OnOk result (self.new ≡ with_name self.old name.now) }
    {
        if self.names.contains(name) {
            return Ok(());
        }
        if self.names.len() >= MOST_NAMES {
            return Err(AllocError);
        }
        let name = Vec::from_slice(alloc, name)?;
        let Ok(_added) = self.names.insert(name) else {
            return Err(AllocError);
        };
        Ok(())
    }
}
