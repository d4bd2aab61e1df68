//! The class files of the built-in classes.

ghost use Rattle.std.specs.Prelude.{◌≡◌, ◌++◌, true, map, IfOk, OnOk};
ghost use Rattle.model.specs.BuiltIn.{built_in_classes as classes_of_the_model};
ghost use Rattle.class_tree.specs.View.{file_of};
ghost use Rattle.class_tree.specs.builtin.View.{all_fit, built_in_from, trees_of};

use crate::ClassFile;
use crate::builtin::form::{BuiltInClass, class_file};
use crate::builtin::tables::{
    FROM_ABSTRACT_METHOD_ERROR, FROM_CHAR_SEQUENCE, FROM_CLASS, FROM_ILLEGAL_ARGUMENT_EXCEPTION,
    FROM_OBJECT, FROM_STRING, FROM_STRING_BUILDER, FROM_SYSTEM, FROM_THREAD, FROM_THROWABLE,
};
use std::alloc::{AllocError, Global};

/// Appends the class files of built-in classes.
fn push_classes(
    files: &mut Vec<ClassFile>,
    alloc: Global,
    classes: &[BuiltInClass],
) -> Result<(), AllocError>
    requires { all_fit classes.now ≡ true }
    ensures { OnOk result (map file_of files.new.items ≡ map file_of files.old.items ++ trees_of classes.now) }
{
    for class in classes {
        files.push(class_file(alloc, class)?)?;
    }
    Ok(())
}

/// The built-in classes 0 to 1.
fn from_object() -> &'static [BuiltInClass]
    ensures { (all_fit result.now ≡ true) × (trees_of result.now ≡ built_in_from 0 2) }
{
    &FROM_OBJECT
}

/// The built-in class 2.
fn from_thread() -> &'static [BuiltInClass]
    ensures { (all_fit result.now ≡ true) × (trees_of result.now ≡ built_in_from 2 1) }
{
    &FROM_THREAD
}

/// The built-in class 3.
fn from_string() -> &'static [BuiltInClass]
    ensures { (all_fit result.now ≡ true) × (trees_of result.now ≡ built_in_from 3 1) }
{
    &FROM_STRING
}

/// The built-in class 4.
fn from_class() -> &'static [BuiltInClass]
    ensures { (all_fit result.now ≡ true) × (trees_of result.now ≡ built_in_from 4 1) }
{
    &FROM_CLASS
}

/// The built-in classes 5 to 6.
fn from_system() -> &'static [BuiltInClass]
    ensures { (all_fit result.now ≡ true) × (trees_of result.now ≡ built_in_from 5 2) }
{
    &FROM_SYSTEM
}

/// The built-in classes 7 to 14.
fn from_throwable() -> &'static [BuiltInClass]
    ensures { (all_fit result.now ≡ true) × (trees_of result.now ≡ built_in_from 7 8) }
{
    &FROM_THROWABLE
}

/// The built-in classes 15 to 22.
fn from_abstract_method_error() -> &'static [BuiltInClass]
    ensures { (all_fit result.now ≡ true) × (trees_of result.now ≡ built_in_from 15 8) }
{
    &FROM_ABSTRACT_METHOD_ERROR
}

/// The built-in classes 23 to 30.
fn from_illegal_argument_exception() -> &'static [BuiltInClass]
    ensures { (all_fit result.now ≡ true) × (trees_of result.now ≡ built_in_from 23 8) }
{
    &FROM_ILLEGAL_ARGUMENT_EXCEPTION
}

/// The built-in classes 31 to 35.
fn from_char_sequence() -> &'static [BuiltInClass]
    ensures { (all_fit result.now ≡ true) × (trees_of result.now ≡ built_in_from 31 5) }
{
    &FROM_CHAR_SEQUENCE
}

/// The built-in class 36.
fn from_string_builder() -> &'static [BuiltInClass]
    ensures { (all_fit result.now ≡ true) × (trees_of result.now ≡ built_in_from 36 1) }
{
    &FROM_STRING_BUILDER
}

/// The built-in classes, in the order of the definitions.
pub fn built_in_classes(alloc: Global) -> Result<Vec<ClassFile>, AllocError>
    ensures { IfOk result (λ v. map file_of v.items ≡ classes_of_the_model) }
{
    let mut classes = Vec::new(alloc);
    push_classes(&mut classes, alloc, from_object())?;
    push_classes(&mut classes, alloc, from_thread())?;
    push_classes(&mut classes, alloc, from_string())?;
    push_classes(&mut classes, alloc, from_class())?;
    push_classes(&mut classes, alloc, from_system())?;
    push_classes(&mut classes, alloc, from_throwable())?;
    push_classes(&mut classes, alloc, from_abstract_method_error())?;
    push_classes(&mut classes, alloc, from_illegal_argument_exception())?;
    push_classes(&mut classes, alloc, from_char_sequence())?;
    push_classes(&mut classes, alloc, from_string_builder())?;
    Ok(classes)
}
