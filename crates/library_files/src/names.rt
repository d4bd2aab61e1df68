//! The names of the classes that linking looks up for a class file.

ghost use Rattle.std.specs.Prelude.{◌≡◌, ◌++◌, ◌∷◌, [], IfOk, OnOk, map, option_map};
ghost use Rattle.std.specs.List.{filter_map};
ghost use Rattle.std.specs.Option.{option_to_list};
ghost use Rattle.model.specs.DescriptorParts.{class_of_element, classes_in};
ghost use Rattle.constant_pool.specs.View.{entry_of, entries_of};
ghost use Rattle.constant_pool.specs.descriptors.View.{field_of};
ghost use Rattle.class_tree.specs.View.{file_of};
ghost use Rattle.library_files.specs.Names.{named, names_of_entry, names_from};
ghost use Rattle.library_files.specs.Needs.{AreNeeded};

use crate::needed_texts::{NeededTexts, is_marked};
use crate::needs::need_file;
use class_tree::{ClassFile, Constant};
use constant_pool::descriptors::{Element, Field, parse_field, parse_method};
use std::alloc::{AllocError, Global};

/// The class that a type is, or that the elements of its arrays are.
fn class_of<'a>(field: &Field<'a>) -> Option<&'a [u8]>
    ensures { option_map (λ t. t.now) result ≡ class_of_element (field_of field.now).element }
{
    match field.element {
        Element::Object(name) => Some(name),
        _ => None,
    }
}

/// Appends a name, if there is one.
fn push_some<'a>(names: &mut Vec<&'a [u8]>, name: Option<&'a [u8]>) -> Result<(), AllocError>
    ensures { OnOk result (named names.new.items
        ≡ named names.old.items ++ option_to_list (option_map (λ t. t.now) name.entry)) }
{
    if let Some(name) = name {
        names.push(name)?;
    }
    Ok(())
}

/// Appends the classes of types.
fn push_classes<'a>(names: &mut Vec<&'a [u8]>, fields: &[Field<'a>]) -> Result<(), AllocError>
    ensures { OnOk result (named names.new.items ≡ named names.old.items
        ++ filter_map (λ f. class_of_element (field_of f).element) fields.now) }
{
    for field in fields {
        push_some(names, class_of(field))?;
    }
    Ok(())
}

/// Appends the classes of a descriptor.
fn push_described<'a>(
    alloc: Global,
    names: &mut Vec<&'a [u8]>,
    text: &'a [u8],
) -> Result<(), AllocError>
    ensures { OnOk result (named names.new.items ≡ named names.old.items ++ classes_in text.now) }
{
    if let Some(field) = parse_field(text) {
        return push_classes(names, &[field]);
    }
    let Some(method) = parse_method(alloc, text)? else {
        return Ok(());
    };
    push_classes(names, method.parameters())?;
    match method.returns() {
        Some(field) => push_classes(names, &[field]),
        None => Ok(()),
    }
}

/// Appends the names of the entry of an index.
fn push_names<'a>(
    alloc: Global,
    names: &mut Vec<&'a [u8]>,
    texts: &NeededTexts,
    index: usize,
    constant: &'a Constant,
) -> Result<(), AllocError>
    ensures { OnOk result (named names.new.items ≡ named names.old.items
        ++ names_of_entry texts.now index (entry_of constant.now)) }
{
    let Constant::Utf8(text) = constant else {
        return Ok(());
    };
    if is_marked(&texts.names, index) {
        names.push(text.as_slice())?;
    }
    if is_marked(&texts.descriptors, index) {
        push_described(alloc, names, text.as_slice())?;
    }
    Ok(())
}

/// The names that the marks of texts of a constant pool stand for.
fn names_of<'a>(
    alloc: Global,
    texts: &NeededTexts,
    pool: &'a [Constant],
) -> Result<Vec<&'a [u8]>, AllocError>
    ensures { IfOk result (λ names. named names.items ≡ names_from texts.now 1 (entries_of pool.now)) }
{
    let mut names = Vec::new(alloc);
    for (place, constant) in pool.iter().enumerate() {
        push_names(alloc, &mut names, texts, place + 1, constant)?;
    }
    Ok(names)
}

/// The names of the classes that linking looks up for a class file, in no order; a name may stand there more than
/// once.
pub fn needed_names(alloc: Global, file: &ClassFile) -> Result<Vec<&[u8]>, AllocError>
    ensures { IfOk result (λ names. AreNeeded (file_of file.now) (named names.items)) }
{
    let mut texts = NeededTexts::new(alloc);
    need_file(alloc, &mut texts, file)?;
    names_of(alloc, &texts, file.pool.constants())
}
