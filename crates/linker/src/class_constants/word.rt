//! What a field keeps of a word that is put into it.

ghost use Rattle.std.specs.Prelude.{◌≡◌, Some};
ghost use Rattle.model.specs.DescriptorScan.{field_type};
ghost use Rattle.model.specs.Operands.{words};
ghost use Rattle.model.specs.Worlds.{element_kept, type_kept};
ghost use Rattle.constant_pool.specs.descriptors.View.{element_of, field_of};

use constant_pool::descriptors::{Element, Field, parse_field};
use heap::NarrowKind;

/// What a field of no dimension keeps.
fn kept_of(element: Element<'_>, word: u32) -> u32
    ensures { result ≡ element_kept words (element_of element.entry) word }
{
    match element {
        Element::Boolean => NarrowKind::Boolean.kept(word),
        Element::Char => NarrowKind::Char.kept(word),
        Element::Byte => NarrowKind::Byte.kept(word),
        Element::Short => NarrowKind::Short.kept(word),
        Element::Double | Element::Float | Element::Int | Element::Long | Element::Object(_) =>
            word,
    }
}

/// What a field of a type keeps.
fn kept_by(field: Field<'_>, word: u32) -> u32
    ensures { result ≡ type_kept words (Some (field_of field.entry)) word }
{
    if field.dimensions == 0 {
        kept_of(field.element, word)
    } else {
        word
    }
}

/// What a field of a descriptor keeps.
pub(crate) fn kept(descriptor: &[u8], word: u32) -> u32
    ensures { result ≡ type_kept words (field_type descriptor.now) word }
{
    match parse_field(descriptor) {
        Some(field) => kept_by(field, word),
        None => word,
    }
}
