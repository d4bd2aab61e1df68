//! What each text of the constant pool says as a descriptor, asked once for each.

ghost use Rattle.std.specs.Prelude.{◌≡◌, IfOk, map, slice_index_or};
ghost use Rattle.std.specs.List.{list_any};
ghost use Rattle.model.specs.Spelling.{entry_at, text_of};
ghost use Rattle.model.specs.Conditions.{text_at, class_text};
ghost use Rattle.model.specs.Descriptors.{FieldType};
ghost use Rattle.model.specs.DescriptorParts.{method_types};
ghost use Rattle.model.specs.Profile.{is_left_out_element};
ghost use Rattle.constant_pool.specs.descriptors.View.{field_of};
ghost use Rattle.constant_pool.specs.View.{entry_of, entries_of};
ghost use Rattle.classfile.specs.profile.Descriptions.{nothing, described, rows_of, descriptor_text, member_text};

use crate::{ClassFile, Constant};
use constant_pool::descriptors::{Element, Field, Method, method_slots, parse_field, parse_method};
use std::alloc::{AllocError, Global};

/// What a text says as the descriptor of a field or of a method. A text that is none says nothing.
#[derive(Clone, Copy)]
pub(crate) struct Described {
    /// Whether it names a type that is left out.
    pub leaves_out: bool,
    /// Whether it is that of a method that returns nothing.
    pub returns_void: bool,
    /// The slots of a method's arguments, without that of a receiver.
    pub slots: u8,
}

/// What no descriptor says.
const NOTHING: Described = Described {
    leaves_out: false,
    returns_void: false,
    slots: 0,
};

/// Whether a type is left out: `long`, `float`, `double`, or an array of one of them.
fn is_left_out(field: Field<'_>) -> bool
    ensures { result ≡ is_left_out_element (field_of field.entry).element }
{
    matches!(
        field.element,
        Element::Long | Element::Float | Element::Double
    )
}

fn any_left_out(fields: &[Field<'_>]) -> bool
    ensures { result ≡ list_any (λ (f : FieldType). is_left_out_element f.element) (map field_of fields.now) }
{
    for field in fields {
        if is_left_out(*field) {
            return true;
        }
    }
    false
}

/// Whether the descriptor of a method names a type that is left out.
fn method_leaves_out(method: &Method<'_>) -> bool
    ensures { result ≡ list_any (λ (f : FieldType). is_left_out_element f.element) (method_types method.now) }
{
    any_left_out(method.parameters()) || method.returns().is_some_and(is_left_out)
}

/// What a text says.
fn describe(alloc: Global, text: &[u8]) -> Result<Described, AllocError>
    ensures { IfOk result (λ d. d ≡ described text.now) }
{
    let method = parse_method(alloc, text)?;
    let leaves_out = match parse_field(text) {
        Some(field) => is_left_out(field),
        None => match &method {
            Some(method) => method_leaves_out(method),
            None => false,
        },
    };
    let returns_void = match &method {
        Some(method) => method.returns().is_none(),
        None => false,
    };
    Ok(Described {
        leaves_out,
        returns_void,
        slots: method_slots(text).unwrap_or(0),
    })
}

/// What the text of an entry says; other entries have none.
#[tactic(auto, unfolding(model::specs::DescriptorScan::element_at, model::specs::DescriptorScan::field_at, model::specs::DescriptorScan::field_type, model::specs::DescriptorScan::method_type))]
fn describe_entry(alloc: Global, constant: &Constant) -> Result<Described, AllocError>
    ensures { IfOk result (λ d. d ≡ described (text_of (entry_of constant.now))) }
{
    match constant {
        Constant::Utf8(text) => describe(alloc, text),
        _ => Ok(NOTHING),
    }
}

/// What the entries of a constant pool say, by their index.
#[tactic(auto, unfolding(model::specs::DescriptorScan::element_at, model::specs::DescriptorScan::field_at, model::specs::DescriptorScan::field_type, model::specs::DescriptorScan::method_type))]
pub(crate) fn describe_pool(alloc: Global, pool: &[Constant]) -> Result<Vec<Described>, AllocError>
    ensures { IfOk result (λ v. v.items ≡ rows_of (entries_of pool.now)) }
{
    let mut rows = Vec::new(alloc);
    rows.push(NOTHING)?;
    for constant in pool {
        rows.push(describe_entry(alloc, constant)?)?;
    }
    Ok(rows)
}

/// The row of an index, and nothing past the rows.
fn row(rows: &[Described], index: usize) -> Described
    ensures { result ≡ slice_index_or rows.now index nothing }
{
    rows.get(index).copied().unwrap_or(NOTHING)
}

/// What the text of an index says.
pub(crate) fn text_says(file: &ClassFile, rows: &[Described], index: u16) -> Described
    requires { rows.now ≡ rows_of file.now.pool }
    ensures { result ≡ described (text_at file.now.pool index) }
{
    row(rows, index as usize)
}

/// What the descriptor of the member says that a reference of an index names.
#[tactic(auto, unfolding(model::specs::DescriptorScan::element_at, model::specs::DescriptorScan::field_at, model::specs::DescriptorScan::field_type, model::specs::DescriptorScan::method_type))]
pub(crate) fn member_says(file: &ClassFile, rows: &[Described], index: u16) -> Described
    requires { rows.now ≡ rows_of file.now.pool }
    ensures { result ≡ described (member_text file.now.pool index) }
{
    match file.constant(index) {
        Some(
            Constant::Field { name_and_type, .. }
            | Constant::Method { name_and_type, .. }
            | Constant::InterfaceMethod { name_and_type, .. },
        ) => name_and_type_says(file, rows, *name_and_type),
        _ => NOTHING,
    }
}

/// What the descriptor of a NameAndType says.
#[tactic(auto, unfolding(model::specs::DescriptorScan::element_at, model::specs::DescriptorScan::field_at, model::specs::DescriptorScan::field_type, model::specs::DescriptorScan::method_type))]
fn name_and_type_says(file: &ClassFile, rows: &[Described], index: u16) -> Described
    requires { rows.now ≡ rows_of file.now.pool }
    ensures { result ≡ described (descriptor_text file.now.pool (entry_at file.now.pool index)) }
{
    match file.constant(index) {
        Some(Constant::NameAndType { descriptor, .. }) => text_says(file, rows, *descriptor),
        _ => NOTHING,
    }
}

/// What the name of a Class says, which is a descriptor where the class is one of arrays.
#[tactic(auto, unfolding(model::specs::DescriptorScan::element_at, model::specs::DescriptorScan::field_at, model::specs::DescriptorScan::field_type, model::specs::DescriptorScan::method_type))]
pub(crate) fn class_says(file: &ClassFile, rows: &[Described], index: u16) -> Described
    requires { rows.now ≡ rows_of file.now.pool }
    ensures { result ≡ described (class_text file.now.pool (entry_at file.now.pool index)) }
{
    match file.constant(index) {
        Some(Constant::Class { name }) => text_says(file, rows, *name),
        _ => NOTHING,
    }
}
