//! What a field keeps of a word that is put into it.

ghost use Rattle.std.specs.Prelude.{◌≡◌, ℕ, Some};
ghost use Rattle.model.specs.Names.{Member};
ghost use Rattle.model.specs.Operands.{words};
ghost use Rattle.model.specs.Worlds.{kept, element_kept, type_kept};
ghost use Rattle.constant_pool.specs.descriptors.View.{element_of, field_of};
ghost use Rattle.linked_code.specs.Fields.{Keeps};
ghost use Rattle.model.specs.Primitives.{primitive_of};

use constant_pool::descriptors::{Element, Field, parse_field};
use model::Primitive;

fn element_kept(element: Element<'_>) -> Primitive
    ensures { (word : ℕ) → element_kept words (element_of element.entry) word ≡ kept (primitive_of result) word }
{
    match element {
        Element::Boolean => Primitive::Boolean,
        Element::Byte => Primitive::Byte,
        Element::Char => Primitive::Char,
        Element::Short => Primitive::Short,
        Element::Int | Element::Long | Element::Float | Element::Double | Element::Object(_) => {
            Primitive::Int
        }
    }
}

fn type_kept(field: Field<'_>) -> Primitive
    ensures { (word : ℕ) → type_kept words (Some (field_of field.entry)) word ≡ kept (primitive_of result) word }
{
    if field.dimensions == 0 {
        element_kept(field.element)
    } else {
        Primitive::Int
    }
}

/// The primitive type of which a field of a descriptor keeps as much of a word as one of that type does (JVMS
/// 2.11.1): its own, where that is narrower than an int, and int for all others, references among them.
pub fn kept_as(descriptor: &[u8]) -> Primitive
    ensures { (field : Member) → field.descriptor ≡ descriptor.now → Keeps field (primitive_of result) }
{
    match parse_field(descriptor) {
        Some(field) => type_kept(field),
        None => Primitive::Int,
    }
}
