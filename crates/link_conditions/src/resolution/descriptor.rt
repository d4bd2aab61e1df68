//! Descriptors that name a class that is not found, asked once for each text of the constant pool.

ghost use Rattle.std.specs.Prelude.{◌≡◌, IfOk, map, false, slice_index_or};
ghost use Rattle.std.specs.List.{list_any};
ghost use Rattle.std.specs.Option.{option_map_or};
ghost use Rattle.model.specs.Spelling.{text_of};
ghost use Rattle.model.specs.Pool.{name_and_type_at};
ghost use Rattle.model.specs.Conditions.{text_at};
ghost use Rattle.model.specs.DescriptorParts.{method_types};
ghost use Rattle.constant_pool.specs.descriptors.View.{field_of};
ghost use Rattle.constant_pool.specs.View.{entry_of, entries_of};
ghost use Rattle.link_conditions.specs.resolution.Unresolved.{lacks_class};
ghost use Rattle.link_conditions.specs.resolution.Rows.{names_missing, descriptor_lacks_class, lacking_texts};

use classfile::{ClassFile, Constant};
use constant_pool::descriptors::{Element, Field, Method, parse_field, parse_method};
use hierarchy::ClassSet;
use std::alloc::{AllocError, Global};

/// Whether a type, or that of an array's elements, is a class that is not found.
fn names_missing(set: &ClassSet, field: Field<'_>) -> bool
    ensures { result ≡ names_missing set.now (field_of field.entry) }
{
    match field.element {
        Element::Object(name) => set.class_of(name).is_none(),
        _ => false,
    }
}

fn any_missing(set: &ClassSet, fields: &[Field<'_>]) -> bool
    ensures { result ≡ list_any (names_missing set.now) (map field_of fields.now) }
{
    for field in fields {
        if names_missing(set, *field) {
            return true;
        }
    }
    false
}

fn method_lacks_class(set: &ClassSet, method: &Method<'_>) -> bool
    ensures { result ≡ list_any (names_missing set.now) (method_types method.now) }
{
    any_missing(set, method.parameters())
        || method
            .returns()
            .is_some_and(|field| names_missing(set, field))
}

/// Whether a class is not found that a text names as the descriptor of a field or of a method. A text that is none
/// names no class.
fn lacks_class(alloc: Global, set: &ClassSet, text: &[u8]) -> Result<bool, AllocError>
    ensures { IfOk result (λ lacks. lacks ≡ lacks_class set.now text.now) }
{
    if let Some(field) = parse_field(text) {
        return Ok(names_missing(set, field));
    }
    match parse_method(alloc, text)? {
        Some(method) => Ok(method_lacks_class(set, &method)),
        None => Ok(false),
    }
}

/// Whether a class is not found that the text of an entry names so; other entries have no text.
#[tactic(auto, unfolding(model::specs::DescriptorScan::element_at, model::specs::DescriptorScan::field_at, model::specs::DescriptorScan::field_type, model::specs::DescriptorScan::method_type))]
fn entry_lacks_class(alloc: Global, set: &ClassSet, constant: &Constant) -> Result<bool, AllocError>
    ensures { IfOk result (λ lacks. lacks ≡ lacks_class set.now (text_of (entry_of constant.now))) }
{
    match constant {
        Constant::Utf8(text) => lacks_class(alloc, set, text),
        _ => Ok(false),
    }
}

/// Whether a class is not found that the text of an entry names so, for each entry of a constant pool by its index.
#[tactic(auto, unfolding(model::specs::DescriptorScan::element_at, model::specs::DescriptorScan::field_at, model::specs::DescriptorScan::field_type, model::specs::DescriptorScan::method_type))]
pub(crate) fn lacking_texts(
    alloc: Global,
    set: &ClassSet,
    pool: &[Constant],
) -> Result<Vec<bool>, AllocError>
    ensures { IfOk result (λ rows. rows.items ≡ lacking_texts set.now (entries_of pool.now)) }
{
    let mut rows = Vec::new(alloc);
    rows.push(false)?;
    for constant in pool {
        rows.push(entry_lacks_class(alloc, set, constant)?)?;
    }
    Ok(rows)
}

/// The mark of an index; none is set past the marks.
fn mark(marks: &[bool], index: usize) -> bool
    ensures { result ≡ slice_index_or marks.now index false }
{
    marks.get(index).copied().unwrap_or(false)
}

/// Whether the text of an index names a class that is not found.
pub(crate) fn text_lacks_class(
    set: &ClassSet,
    file: &ClassFile,
    lacking: &[bool],
    index: u16,
) -> bool
    requires { lacking.now ≡ lacking_texts set.now file.now.pool }
    ensures { result ≡ lacks_class set.now (text_at file.now.pool index) }
{
    mark(lacking, index as usize)
}

/// Whether the descriptor of a NameAndType names a class that is not found.
pub(crate) fn descriptor_lacks_class(
    set: &ClassSet,
    file: &ClassFile,
    lacking: &[bool],
    index: u16,
) -> bool
    requires { lacking.now ≡ lacking_texts set.now file.now.pool }
    ensures { result ≡ descriptor_lacks_class set.now (name_and_type_at file.now.pool index) }
{
    match file.constant(index) {
        Some(Constant::NameAndType { name, descriptor }) => {
            file.utf8(*name).is_some()
                && file.utf8(*descriptor).is_some()
                && text_lacks_class(set, file, lacking, *descriptor)
        }
        _ => false,
    }
}
