//! What a text is.

ghost use Rattle.std.specs.Prelude.{◌≡◌};
ghost use Rattle.model.specs.Descriptors as descriptors;
ghost use Rattle.model.specs.DescriptorScan as scan;
ghost use Rattle.model.specs.Conditions as conditions;
ghost use Rattle.constant_pool.specs.Texts.{kind_of};

use crate::descriptors::{is_class_name, is_unqualified_name, method_slots, parse_field};
use crate::name::is_name_of_method;

/// What a text is: which names (JVMS 4.2) and which descriptors (JVMS 4.3).
#[derive(Clone, Copy)]
pub struct TextKind {
    /// An unqualified name, as a field has.
    pub is_unqualified: bool,
    /// A name that a method may have (JVMS 4.2.2).
    pub is_method_name: bool,
    /// The name of a class.
    pub is_class_name: bool,
    /// The name of a class, or the descriptor of an array type, which a Class may name too (JVMS 4.4.1).
    pub is_class_or_array: bool,
    pub is_field_descriptor: bool,
    /// Whether it begins with `(`, as descriptors of methods do.
    pub begins_as_method: bool,
    /// The slots of the parameters where it is the descriptor of a method.
    pub method_slots: Option<u8>,
}

fn is_class_or_array(text: &[u8], is_class_name: bool, is_field_descriptor: bool) -> bool
    requires class_name { is_class_name ≡ descriptors.is_class_name text.now }
    requires field_descriptor { is_field_descriptor ≡ scan.is_field_descriptor text.now }
    ensures { result ≡ conditions.is_class_or_array text.now }
{
    is_class_name || matches!(text, [b'[', ..]) && is_field_descriptor
}

fn is_field_descriptor(text: &[u8]) -> bool
    ensures { result ≡ scan.is_field_descriptor text.now }
{
    parse_field(text).is_some()
}

fn begins_as_method(text: &[u8]) -> bool
    ensures { result ≡ conditions.begins_with 40 text.now }
{
    matches!(text, [b'(', ..])
}

/// What a text is.
pub(crate) fn kind_of(text: &[u8]) -> TextKind
    ensures { result ≡ kind_of text.now }
{
    let is_unqualified = is_unqualified_name(text);
    let is_class_name = is_class_name(text);
    let is_field_descriptor = is_field_descriptor(text);
    TextKind {
        is_unqualified,
        is_method_name: is_name_of_method(text, is_unqualified),
        is_class_name,
        is_class_or_array: is_class_or_array(text, is_class_name, is_field_descriptor),
        is_field_descriptor,
        begins_as_method: begins_as_method(text),
        method_slots: method_slots(text),
    }
}
