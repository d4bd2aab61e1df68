//! The fields of an object that are variables (JLS 17.4.1), those of its superclasses first.
//!
//! # Proved
//!
//! - `instance_variables`: of linked class files, by the name of a class, the instance fields of its objects that are
//!   variables, in their order: each by the class that declares it and its place among that class's fields, and whether
//!   it is volatile (`AreFields`, `instance_fields` of the definitions).
//!
//! # Wrong bodies
//!
//! - `instance_variables-superclass-is-forgotten`: the fields of the class itself alone are told; refused by
//!   `lineage`.
//! - `instance_variables-static-ones-are`: static fields are told, too; refused by `instance_variable`.
//! - `instance_variables-hidden-ones-are`: a Throwable's message is a variable; refused by `if_variable`.

ghost use Rattle.std.specs.Prelude.{◌≡◌, ◌++◌, List, length, map, IfOk, OnOk};
ghost use Rattle.std.specs.Option.{option_map_or, option_to_list};
ghost use Rattle.std.specs.List.{filter};
ghost use Rattle.model.specs.Classes.{lineage as lineage_of_class, name_of};
ghost use Rattle.model.specs.Lookup.{field_member, instance_fields, own_instance_fields};
ghost use Rattle.model.specs.Names.{Member};
ghost use Rattle.model.specs.Tree.{FileTree};
ghost use Rattle.hierarchy.specs.Places.{class_at};
ghost use Rattle.class_tree.specs.View.{field_of, file_of};
ghost use Rattle.constant_pool.specs.View.{reference_of};
ghost use Rattle.data_races.specs.EventActions.{is_variable};
ghost use Rattle.field_names.specs.instance_variables.Declared.{AreFields, kept_variable, variable_at};
ghost use Rattle.field_names.specs.named_fields.Fields.{IsFieldIf};

use crate::named_fields::{NamedField, named_field};
use class_tree::{ClassFile, Field, Reference, class_name};
use hierarchy::ClassSet;
use linker::Linked;
use std::alloc::{AllocError, Global};

/// The names of a class and of those above it, that of the class first.
fn lineage<'a>(
    alloc: Global,
    set: &'a ClassSet,
    class: &'a [u8],
) -> Result<Vec<&'a [u8]>, AllocError>
    ensures { IfOk result (λ names. map (λ name. name.now) names.items ≡ lineage_of_class set.now class.now) }
{
    let mut names = Vec::new(alloc);
    let mut name = class;
    'steps: for _step in 0..set.count() {
        names.push(name)?;
        let Some(next) = set.superclass_of(name) else {
            return Ok(names);
        };
        name = next;
    }
    Ok(names)
}

/// A field that a class declares, by its names.
fn named_by<'a>(file: &'a ClassFile, field: &Field) -> Reference<'a>
    ensures { reference_of result ≡ field_member (name_of (file_of file.now)) (file_of file.now).pool
        (field_of field.now) }
{
    Reference {
        class: class_name(file),
        name: file.pool.text(field.name),
        descriptor: file.pool.text(field.descriptor),
    }
}

/// A field, if it is a variable.
fn if_variable(field: Option<NamedField>) -> Option<NamedField>
    ensures { result ≡ kept_variable field }
{
    match field {
        Some(field) if field.is_variable => Some(field),
        _ => None,
    }
}

/// The field at a place among those that the class at a place declares, if it is one of the objects and a variable.
fn instance_variable(linked: &Linked, class: usize, place: usize) -> Option<NamedField>
    ensures { IsFieldIf linked.now (variable_at linked.now class place) result }
{
    let Some(file) = linked.set().class_at(class) else {
        return None;
    };
    let Some(field) = file.fields.get(place) else {
        return None;
    };
    if field.is_static() {
        return None;
    }
    let named = named_by(file, field);
    if_variable(named_field(linked.hierarchy(), named))
}

/// How many fields the class at a place declares.
fn field_count(set: &ClassSet, class: usize) -> usize
    ensures { result ≡ option_map_or (λ (file : FileTree). length file.fields) (class_at set.now class) 0 }
{
    match set.class_at(class) {
        Some(file) => file.fields.len(),
        None => 0,
    }
}

/// Puts a field behind others, if there is one.
fn push(told: &mut Vec<NamedField>, field: Option<NamedField>) -> Result<(), AllocError>
    ensures { OnOk result (told.new.items ≡ told.old.items ++ option_to_list field) }
{
    if let Some(field) = field {
        told.push(field)?;
    }
    Ok(())
}

/// Puts the instance fields behind others that are variables and that a class itself declares.
fn push_own(told: &mut Vec<NamedField>, linked: &Linked, class: &[u8]) -> Result<(), AllocError>
    ensures { OnOk result ((before : List Member) → AreFields linked.now before told.old.items
        → AreFields linked.now (before ++ filter is_variable (own_instance_fields linked.now class.now))
        told.new.items) }
{
    let Some(place) = linked.set().place_of(class) else {
        return Ok(());
    };
    let count = field_count(linked.set(), place);
    'fields: for field in 0..count {
        push(told, instance_variable(linked, place, field))?;
    }
    Ok(())
}

/// The fields of the objects of a class that are variables. The only error is a want of memory.
pub fn instance_variables(
    alloc: Global,
    linked: &Linked,
    class: &[u8],
) -> Result<Vec<NamedField>, AllocError>
    ensures { IfOk result (λ told. AreFields linked.now (filter is_variable (instance_fields linked.now class.now))
        told.items) }
{
    let mut names = lineage(alloc, linked.set(), class)?;
    let mut told = Vec::new(alloc);
    'classes: while let Some(name) = names.pop() {
        push_own(&mut told, linked, name)?;
    }
    Ok(told)
}
