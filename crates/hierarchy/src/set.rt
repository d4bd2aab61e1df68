//! The classes of a program, by their names.

ghost use Rattle.std.specs.Prelude.{◌≡◌, ◌+◌, ◌<◌, ◌^◌, length, map, false, slice_get, Some, option_map, IfOk, IfErr, IfSome, OnOk};
ghost use Rattle.model.specs.Classes.{classes_of, class_of, superclass_of, is_subclass, is_interface, name_of};
ghost use Rattle.model.specs.TypeJoin.{class_join};
ghost use Rattle.model.specs.Linkable.{stands, DuplicateClass, two_of_one_name};
ghost use Rattle.model.specs.BuiltIn.{built_in_classes as classes_of_the_model};
ghost use Rattle.constant_pool.specs.View.{reference_of};
ghost use Rattle.class_tree.specs.View.{file_of};
ghost use Rattle.hierarchy.specs.Set.{trees_of, files_of, IsRefused};
ghost use Rattle.hierarchy.specs.Places.{place_of, class_at, name_at};
ghost use Rattle.hierarchy.specs.MembersAt.{superclass_place};

use crate::climb::{common_superclass, is_subclass_by, superclass_by};
use crate::lineage::{Lineage, lineages};
use crate::member_keys::{MemberKeys, member_keys, no_member_keys};
use crate::refusal::SetRefusal;
use crate::sought::Sought;
use class_tree::builtin::built_in_classes;
use class_tree::{ClassFile, Reference, class_name, superclass_name};
use indexmap::IndexSet;
use model::BUILT_IN_CLASSES;
use std::alloc::{AllocError, Global};
use std::marker::Model;

/// The classes of a program: the built-in ones, then those of its files in their order. No two have one name.
#[derive(Drop)]
pub struct ClassSet {
    classes: Vec<ClassFile>,
    /// The name of each class.
    names: IndexSet<Vec<u8>>,
    /// How each class stands below its superclasses. Empty where a superclass isn't found, or a class is above itself.
    lineages: Vec<Lineage>,
    /// The members that the classes declare, by numbers of the texts that name and describe them.
    member_keys: MemberKeys,
}

impl Model for ClassSet {
    ghost use Rattle.std.specs.Prelude.{map};
    ghost use Rattle.model.specs.Classes.{Program};
    ghost use Rattle.hierarchy.specs.Set.{trees_of, files_of, Holds};

    ghost Value = { Program };

    ghost view = { λ s. files_of (trees_of s.classes.items) };

    ghost invariant = { λ s. Holds (trees_of s.classes.items) (map (λ name. name.items) s.names.keys) s.lineages.items s.member_keys };
}

/// The names of classes, of which the first, so many as `built_in`, are the built-in ones.
fn names_of(
    alloc: Global,
    classes: &[ClassFile],
    built_in: usize,
) -> Result<IndexSet<Vec<u8>>, SetRefusal>
    requires whole { classes_of (files_of (trees_of classes.now)) ≡ trees_of classes.now }
    requires count { built_in ≡ length classes_of_the_model }
    ensures named { IfOk result (λ names. map (λ name. name.items) names.keys ≡ map name_of (trees_of classes.now)) }
    ensures differ { OnOk result (two_of_one_name (trees_of classes.now) ≡ false) }
    ensures refused { IfErr result (IsRefused (files_of (trees_of classes.now))) }
{
    let mut names = IndexSet::new(alloc);
    'classes: for (place, class) in classes.iter().enumerate() {
        let name = Vec::from_slice(alloc, class_name(class))?;
        if !names.insert(name)? {
            return Err(SetRefusal::DuplicateClass {
                file: place - built_in,
            });
        }
    }
    Ok(names)
}

impl ClassSet {
    /// The set that `new` makes, with empty tables.
    fn without_lineages(alloc: Global, files: Vec<ClassFile>) -> Result<ClassSet, SetRefusal>
        ensures set { IfOk result (λ set. set ≡ trees_of files.items) }
        ensures differ { OnOk result (stands (trees_of files.items) DuplicateClass ≡ false) }
        ensures refused { IfErr result (IsRefused (trees_of files.items)) }
    {
        let mut files = files;
        let mut classes = built_in_classes(alloc)?;
        let built_in = classes.len();
        classes.append(&mut files)?;
        match names_of(alloc, &classes, built_in) {
            Ok(names) => Ok(ClassSet {
                classes,
                names,
                lineages: Vec::new(alloc),
                member_keys: no_member_keys(alloc),
            }),
            Err(refusal) => Err(refusal),
        }
    }

    /// A set with the table of its classes.
    fn with_lineages(alloc: Global, set: ClassSet) -> Result<ClassSet, AllocError>
        ensures { IfOk result (λ whole. whole ≡ set) }
    {
        let mut whole = set;
        let lineages = lineages(alloc, &whole)?;
        whole.lineages = lineages;
        Ok(whole)
    }

    /// A set with the keys of its members.
    fn with_member_keys(alloc: Global, set: ClassSet) -> Result<ClassSet, AllocError>
        ensures { IfOk result (λ whole. whole ≡ set) }
    {
        let mut whole = set;
        let keys = member_keys(alloc, &whole)?;
        whole.member_keys = keys;
        Ok(whole)
    }

    /// The set of the built-in classes and those of files, unless two have one name.
    pub fn new(alloc: Global, files: Vec<ClassFile>) -> Result<ClassSet, SetRefusal>
        ensures set { IfOk result (λ set. set ≡ trees_of files.items) }
        ensures differ { OnOk result (stands (trees_of files.items) DuplicateClass ≡ false) }
        ensures refused { IfErr result (IsRefused (trees_of files.items)) }
    {
        let set = ClassSet::without_lineages(alloc, files)?;
        let ranked = ClassSet::with_lineages(alloc, set)?;
        let whole = ClassSet::with_member_keys(alloc, ranked)?;
        Ok(whole)
    }

    /// How many classes there are.
    pub fn count(&self) -> usize
        ensures { result ≡ length (classes_of self.now) }
    {
        self.classes.len()
    }

    /// The class at a place.
    pub fn class_at(&self, place: usize) -> Option<&ClassFile>
        ensures { option_map (λ c. file_of c.now) result ≡ class_at self.now place }
    {
        self.classes.get(place)
    }

    /// How many files there are.
    pub fn file_count(&self) -> usize
        ensures count { result ≡ length self.now }
        ensures fits { result + BUILT_IN_CLASSES < 2 ^ 64 }
    {
        self.count().saturating_sub(BUILT_IN_CLASSES)
    }

    /// The class of the file of a number. Files are counted from 0.
    pub fn file_at(&self, number: usize) -> Option<&ClassFile>
        ensures { option_map (λ c. file_of c.now) result ≡ slice_get self.now number }
    {
        if number >= self.file_count() {
            return None;
        }
        self.class_at(BUILT_IN_CLASSES + number)
    }

    /// The place of the class of a name.
    pub fn place_of(&self, name: &[u8]) -> Option<usize>
        ensures place { result ≡ place_of self.now name.now }
    {
        self.names.get_index_of(name)
    }

    /// The class of a name (JVMS 5.3).
    pub fn class_of(&self, name: &[u8]) -> Option<&ClassFile>
        ensures { option_map (λ c. file_of c.now) result ≡ class_of self.now name.now }
    {
        let Some(place) = self.place_of(name) else {
            return None;
        };
        self.class_at(place)
    }

    /// The name of the direct superclass of the class of a name.
    pub fn superclass_of(&self, name: &[u8]) -> Option<&[u8]>
        ensures { option_map (λ t. t.now) result ≡ superclass_of self.now name.now }
    {
        let Some(class) = self.class_of(name) else {
            return None;
        };
        superclass_name(class)
    }

    /// The name of the class at a place; no bytes where there is no class.
    pub fn name_at(&self, place: usize) -> &[u8]
        ensures { result.now ≡ name_at self.now place }
    {
        match self.class_at(place) {
            Some(class) => class_name(class),
            None => b"",
        }
    }

    /// The place of the direct superclass of the class at a place. None where it has none, or that isn't found.
    pub(crate) fn superclass_place(&self, place: usize) -> Option<usize>
        ensures { result ≡ superclass_place self.now place }
    {
        if place < self.lineages.len() {
            return superclass_by(self, &self.lineages, place);
        }
        let Some(class) = self.class_at(place) else {
            return None;
        };
        let Some(name) = superclass_name(class) else {
            return None;
        };
        self.place_of(name)
    }

    /// A member that is sought in these classes.
    pub(crate) fn sought<'a>(&'a self, member: Reference<'a>) -> Sought<'a>
        ensures files { result.files ≡ self.now }
        ensures member { result.member ≡ reference_of member.entry }
    {
        Sought::new(self, &self.member_keys, member)
    }

    /// The first of the superclasses of a class, or that class, of which another class is a subclass, or which is
    /// that. Takes no memory, and a few steps more where the superclasses are twice as many. None, too, where a
    /// superclass isn't found or a class is above itself.
    pub fn common_superclass(&self, c: usize, d: usize) -> Option<usize>
        ensures { IfSome result (λ p.
            class_join self.now (name_at self.now c) (name_at self.now d) ≡ Some (name_at self.now p)) }
    {
        common_superclass(self, &self.lineages, c, d)
    }

    /// Whether the class at a place is that at another, or a subclass of it (JVMS 2.4). Takes no memory.
    pub fn is_subclass_at(&self, class: usize, superclass: usize) -> bool
        ensures { result ≡ is_subclass self.now (name_at self.now class) (name_at self.now superclass) }
    {
        match is_subclass_by(self, &self.lineages, class, superclass) {
            Some(is) => is,
            None => self.is_subclass_by_steps(self.name_at(class), self.name_at(superclass)),
        }
    }

    /// Whether the first class is the second, or a subclass of it (JVMS 2.4). Takes no memory.
    pub fn is_subclass(&self, class: &[u8], superclass: &[u8]) -> bool
        ensures { result ≡ is_subclass self.now class.now superclass.now }
    {
        let Some(place) = self.place_of(class) else {
            return class == superclass;
        };
        let Some(above) = self.place_of(superclass) else {
            return self.is_below_absent(place, superclass);
        };
        self.is_subclass_at(place, above)
    }

    /// Whether the class of a name is there and is an interface (JVMS 4.1, ACC_INTERFACE).
    pub fn is_interface(&self, name: &[u8]) -> bool
        ensures { result ≡ is_interface self.now name.now }
    {
        match self.class_of(name) {
            Some(class) => class.is_interface(),
            None => false,
        }
    }
}
