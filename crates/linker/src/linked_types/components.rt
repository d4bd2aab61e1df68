//! Component types by numbers.

ghost use Rattle.std.specs.Prelude.{◌≡◌, ◌*◌, ◌<◌, ◌^◌, ℕ, Some, false, true, is_some, length, slice_get, IfOk, IfSome, OnOk};
ghost use Rattle.classfile.specs.View.{file_of};
ghost use Rattle.model.specs.Names.{Name, java_lang_string};
ghost use Rattle.model.specs.Tree.{FileTree};
ghost use Rattle.model.specs.Pool.{class_name_at};
ghost use Rattle.model.specs.Classes.{Program, classes_of};
ghost use Rattle.model.specs.ReferenceTypes.{ReferenceType, ClassType};
ghost use Rattle.model.specs.DescribedTypes.{type_named};
ghost use Rattle.hierarchy.specs.Places.{class_at};
ghost use Rattle.linker.specs.Linking.{IsLinked};
ghost use Rattle.types.specs.described_types.Described.{type_missing};
ghost use Rattle.linked_code.specs.Numbers.{IsType, IsTypeAt};
ghost use Rattle.linker.specs.linked_types.Components.{is_among, Grows, AddsOnly, HasNamed, IsInPool, IsInProgram, AreComponents, IsComponentOperand};

use crate::Linked;
use crate::linked_types::named::named_type;
use crate::linked_types::names::NameNumbers;
use classfile::ClassFile;
use hierarchy::ClassSet;
use linked_code::LinkedType;
use std::alloc::{AllocError, Global};

/// String is the first of all component types.
const STRING: u32 = 0;

/// The types that class constants of a program name, each name once, by numbers of their own: String, and then class by
/// class.
#[derive(Drop)]
pub struct Components {
    /// What the constants name.
    names: NameNumbers,
    /// The type of each name.
    types: Vec<LinkedType>,
}

/// Adds the type of a name, unless it is there, or its class is not in the set.
fn add_type(
    components: &mut Components,
    alloc: Global,
    set: &ClassSet,
    name: &[u8],
) -> Result<(), AllocError>
    requires linked { IsLinked set.now }
    ensures grows { OnOk result (Grows set.now components.old components.new 1) }
    ensures there { OnOk result (type_missing set.now (type_named name.now) ≡ false
        → is_among name.now components.new.names ≡ true) }
    ensures only { OnOk result (AddsOnly components.old components.new (λ added. added ≡ name.now)) }
{
    if components.names.number_of(name).is_some() {
        return Ok(());
    }
    let Some(linked) = named_type(set, name) else {
        return Ok(());
    };
    components.types.push(linked)?;
    components.names.add(alloc, name)?;
    Ok(())
}

/// Adds what the Class of an index names.
fn add_named(
    components: &mut Components,
    alloc: Global,
    set: &ClassSet,
    file: &ClassFile,
    index: u16,
) -> Result<(), AllocError>
    requires linked { IsLinked set.now }
    ensures grows { OnOk result (Grows set.now components.old components.new 1) }
    ensures there { OnOk result (HasNamed set.now (file_of file.now) index components.new) }
    ensures only { OnOk result
        (AddsOnly components.old components.new (λ added. class_name_at file.now.pool index ≡ Some added)) }
{
    match file.class_name(index) {
        Some(name) => add_type(components, alloc, set, name),
        None => Ok(()),
    }
}

/// Adds what the constant pool of a class names.
fn add_pool(
    components: &mut Components,
    alloc: Global,
    set: &ClassSet,
    file: &ClassFile,
) -> Result<(), AllocError>
    requires linked { IsLinked set.now }
    ensures grows { OnOk result (Grows set.now components.old components.new 0x10000) }
    ensures there { OnOk result ((index : ℕ) → index < 2 ^ 16
        → HasNamed set.now (file_of file.now) index components.new) }
    ensures only { OnOk result (AddsOnly components.old components.new (IsInPool (file_of file.now))) }
{
    let indices = (file.pool.constants().len() + 1).min(0x1_0000);
    for index in 0..indices {
        add_named(components, alloc, set, file, index as u16)?;
    }
    Ok(())
}

/// Adds what the constant pools of all classes name.
fn add_pools(components: &mut Components, alloc: Global, set: &ClassSet) -> Result<(), AllocError>
    requires linked { IsLinked set.now }
    ensures grows { OnOk result (Grows set.now components.old components.new (length (classes_of set.now) * 0x10000)) }
    ensures there { OnOk result ((class index : ℕ) (file : FileTree) → index < 2 ^ 16
        → class_at set.now class ≡ Some file
        → HasNamed set.now file index components.new) }
    ensures only { OnOk result (AddsOnly components.old components.new (IsInProgram set.now)) }
{
    for place in 0..set.count() {
        let Some(file) = set.class_at(place) else {
            return Ok(());
        };
        add_pool(components, alloc, set, file)?;
    }
    Ok(())
}

impl Components {
    /// The component types of linked files. This alone takes memory.
    pub fn new(alloc: Global, linked: &Linked) -> Result<Components, AllocError>
        ensures { IfOk result (AreComponents linked.now) }
    {
        let set = linked.set();
        let mut components = Components {
            names: NameNumbers::new(alloc),
            types: Vec::new(alloc),
        };
        add_type(&mut components, alloc, set, b"java/lang/String")?;
        add_pools(&mut components, alloc, set)?;
        Ok(components)
    }

    /// The number of the component type that the Class of an index names, for an `anewarray` in the class at a place.
    /// `None` where the index names no Class, and where the class that it names, or that of an array's elements, is not
    /// in the program.
    pub fn component(&self, linked: &Linked, class: usize, index: u16) -> Option<u32>
        requires components { AreComponents linked.now self.now }
        ensures right { (file : FileTree) → class_at linked.now class ≡ Some file
            → IfSome result (IsComponentOperand linked.now self.now.types.items file.pool index) }
        ensures there { (file : FileTree) (name : Name) → class_at linked.now class ≡ Some file
            → class_name_at file.pool index ≡ Some name
            → type_missing linked.now (type_named name) ≡ false → is_some result ≡ true }
    {
        let file = linked.set().class_at(class)?;
        let name = file.class_name(index)?;
        let number = self.names.number_of(name)?;
        Some(number as u32)
    }

    /// The number of String.
    pub fn string_component(&self) -> u32
        ensures { (files : Program) → AreComponents files self.now
            → IsTypeAt files self.now.types.items result (ClassType java_lang_string) }
    {
        STRING
    }

    /// The types by their numbers.
    pub fn into_types(self) -> Vec<LinkedType>
        ensures same { result ≡ self.types }
        ensures each { (files : Program) → AreComponents files self → (number : ℕ) (t : LinkedType)
            → slice_get result.items number ≡ Some t → (type : ReferenceType) × IsType files t type }
    {
        self.types
    }
}
