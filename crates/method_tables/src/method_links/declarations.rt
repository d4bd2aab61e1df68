//! The methods that calls may select, by the classes that declare them.

ghost use Rattle.std.specs.Prelude.{◌≡◌, ◌&&◌, Some, IfOk, OnOk, if◌then◌else◌};
ghost use Rattle.std.specs.Map.{lookup};
ghost use Rattle.model.specs.Lookup.{is_selectable};
ghost use Rattle.classfile.specs.View.{method_of};
ghost use Rattle.types.specs.method_code.Linked.{IsLinked};
ghost use Rattle.method_tables.specs.method_links.Numbers.{AreNumbersOf};
ghost use Rattle.method_tables.specs.method_links.Selected.{firsts_of, parts_of, key_of, is_declaration, selectable_at, AreDeclared};
ghost use Rattle.method_tables.specs.declared.method_links.selectors.Part.TheVariants as part;

use crate::method_links::numbers::MethodNumbers;
use classfile::Method;
use hierarchy::{ClassSet, MemberPlace};
use indexmap::IndexMap;
use std::alloc::{AllocError, Global};

/// A name and a descriptor in the class at a place. Both are given by the number of the first method that has them.
#[derive(Clone, Copy, PartialEq, Eq, Hash)]
pub(crate) struct Declaration {
    pub class: usize,
    pub name: usize,
    pub descriptor: usize,
}

/// A method of a number as the class at a place would declare it.
pub(crate) fn key_of(
    names: &[usize],
    descriptors: &[usize],
    class: usize,
    number: usize,
) -> Declaration
    ensures { result ≡ key_of names.now descriptors.now class number }
{
    Declaration {
        class,
        name: names.get(number).copied().unwrap_or(0),
        descriptor: descriptors.get(number).copied().unwrap_or(0),
    }
}

/// Whether a method is neither static nor private.
fn is_selectable(method: &Method) -> bool
    ensures { result ≡ is_selectable (method_of method.now) }
{
    !method.is_static() && !method.is_private()
}

/// Whether the method at a place is there, and is neither static nor private.
fn is_selectable_at(set: &ClassSet, place: MemberPlace) -> bool
    ensures { result ≡ selectable_at set.now place }
{
    let Some(file) = set.class_at(place.class) else {
        return false;
    };
    match file.methods.get(place.member) {
        Some(method) => is_selectable(method),
        None => false,
    }
}

/// Adds a number, if this is wanted.
fn add_if(
    declared: &mut IndexMap<Declaration, usize>,
    is_wanted: bool,
    key: Declaration,
    number: usize,
) -> Result<(), AllocError>
    ensures { OnOk result ((q : Declaration)
        → lookup (is_declaration q) declared.new.entries
        ≡ (if is_wanted && is_declaration key q then Some number else lookup (is_declaration q) declared.old.entries)) }
{
    if !is_wanted {
        return Ok(());
    }
    let Ok(_earlier) = declared.insert(key, number) else {
        return Err(AllocError);
    };
    Ok(())
}

/// The numbers of the methods that classes declare, without static and private ones.
pub(crate) fn declared_of(
    alloc: Global,
    set: &ClassSet,
    numbers: &MethodNumbers,
    names: &[usize],
    descriptors: &[usize],
) -> Result<IndexMap<Declaration, usize>, AllocError>
    requires linked { IsLinked set.now }
    requires numbers { AreNumbersOf set.now numbers.now }
    requires names { names.now ≡ firsts_of (parts_of part.Name set.now) }
    requires descriptors { descriptors.now ≡ firsts_of (parts_of part.Descriptor set.now) }
    ensures { IfOk result (λ declared. AreDeclared set.now names.now descriptors.now declared.entries) }
{
    let mut declared = IndexMap::new(alloc);
    for number in 0..numbers.count() {
        let Some(place) = numbers.place(number) else {
            return Ok(declared);
        };
        let key = key_of(names, descriptors, place.class, number);
        add_if(&mut declared, is_selectable_at(set, place), key, number)?;
    }
    Ok(declared)
}
