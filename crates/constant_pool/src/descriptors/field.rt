//! Descriptors of fields (JVMS 4.3.2).

ghost use Rattle.std.specs.Prelude.{◌≡◌, ◌<◌, ◌≤◌, List, length, IfSome, IsSomeAnd};
ghost use Rattle.model.specs.Descriptors.{FieldType, IsField, slots};
ghost use Rattle.model.specs.DescriptorScan.{name_length, dimensions_of, element_at, field_at, field_type};
ghost use Rattle.constant_pool.specs.descriptors.View.{Gives, element_of, field_of};

use crate::descriptors::name::is_class_name;

/// What is no array. An object has a class name, as `java/lang/String`.
#[derive(Clone, Copy)]
pub enum Element<'a> {
    Byte,
    Char,
    Double,
    Float,
    Int,
    Long,
    Object(&'a [u8]),
    Short,
    Boolean,
}

/// An array of so many dimensions, or the element where there are none.
#[derive(Clone, Copy)]
pub struct Field<'a> {
    pub dimensions: u8,
    pub element: Element<'a>,
}

impl Field<'_> {
    /// The slots that it takes: two where it is a `long` or a `double` (JVMS 4.3.3).
    pub fn slots(&self) -> u8
        ensures value { result ≡ slots (field_of self.now) }
        ensures few { result ≤ 2 }
    {
        match self.element {
            Element::Long | Element::Double if self.dimensions == 0 => 2,
            _ => 1,
        }
    }
}

/// How many bytes stand before the first semicolon.
fn name_length(text: &[u8]) -> Option<usize>
    ensures value { result ≡ name_length text.now }
    ensures inside { IfSome result (λ n. n < length text.now) }
{
    let mut rest = text;
    let mut count = 0;
    'bytes: while let [byte, after @ ..] = rest {
        if *byte == b';' {
            return Some(count);
        }
        rest = after;
        count += 1;
    }
    None
}

/// How many dimensions come first.
fn dimensions(text: &[u8]) -> usize
    ensures value { result ≡ dimensions_of text.now }
    ensures inside { result ≤ length text.now }
{
    let mut rest = text;
    let mut count = 0;
    'bytes: while let [b'[', after @ ..] = rest {
        rest = after;
        count += 1;
    }
    count
}

/// An element and what is behind it.
#[tactic(auto, unfolding(model::specs::DescriptorScan::element_at))]
fn read_element(text: &[u8]) -> Option<(Element<'_>, &[u8])>
    ensures { Gives (λ x. (element_of x.0, x.1.now)) result (element_at text.now) }
{
    match text {
        [b'B', rest @ ..] => Some((Element::Byte, rest)),
        [b'C', rest @ ..] => Some((Element::Char, rest)),
        [b'D', rest @ ..] => Some((Element::Double, rest)),
        [b'F', rest @ ..] => Some((Element::Float, rest)),
        [b'I', rest @ ..] => Some((Element::Int, rest)),
        [b'J', rest @ ..] => Some((Element::Long, rest)),
        [b'S', rest @ ..] => Some((Element::Short, rest)),
        [b'Z', rest @ ..] => Some((Element::Boolean, rest)),
        [b'L', rest @ ..] => match name_length(rest) {
            Some(n) if is_class_name(&rest[..n]) => {
                Some((Element::Object(&rest[..n]), &rest[n + 1..]))
            }
            _ => None,
        },
        _ => None,
    }
}

/// A type and what is behind it.
#[tactic(auto, unfolding(model::specs::DescriptorScan::field_at))]
pub(crate) fn read_field(text: &[u8]) -> Option<(Field<'_>, &[u8])>
    ensures { Gives (λ x. (field_of x.0, x.1.now)) result (field_at text.now) }
{
    let dimensions = dimensions(text);
    if dimensions > 255 {
        return None;
    }
    match read_element(&text[dimensions..]) {
        None => None,
        Some((element, rest)) => {
            let dimensions = dimensions as u8;
            Some((
                Field {
                    dimensions,
                    element,
                },
                rest,
            ))
        }
    }
}

#[tactic(auto, unfolding(model::specs::DescriptorScan::field_type))]
fn parsed(text: &[u8]) -> Option<Field<'_>>
    ensures { Gives (λ f. field_of f) result (field_type text.now) }
{
    match read_field(text) {
        Some((field, [])) => Some(field),
        _ => None,
    }
}

/// The type that a field's descriptor describes.
pub fn parse_field(text: &[u8]) -> Option<Field<'_>>
    ensures scanned { Gives (λ f. field_of f) result (field_type text.now) }
    // What is answered is spelled so.
    ensures found { IfSome result (λ f. IsField text.now (field_of f)) }
    // What is spelled so is answered.
    ensures only { (f : FieldType) → IsField text.now f → IsSomeAnd result (λ x. field_of x ≡ f) }
{
    parsed(text)
}
