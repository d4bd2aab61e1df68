//! The order of types (JVMS 4.10.1.2): what is below may stand where what is above is expected.

ghost use Rattle.std.specs.Prelude.{◌≡◌, ◌==◌};
ghost use Rattle.model.specs.ReferenceTypes.{primitive_number, is_assignable};
ghost use Rattle.model.specs.Types.{is_of};
ghost use Rattle.model.specs.InitialisedTypes.{is_uninitialised, is_uninitialised_this};
ghost use Rattle.model.specs.TypeOrder.{is_stack_below, is_local_below};
ghost use Rattle.hierarchy.specs.Places.{name_at};
ghost use Rattle.model.specs.Primitives.{primitive_of};
ghost use Rattle.types.specs.View.{element_in, reference_in, type_in, is_object_type};

use crate::class::{is_object, is_same_class, is_subclass};
use crate::reference_type::{Element, ReferenceType};
use crate::verification_type::VerificationType;
use hierarchy::ClassSet;
use model::Primitive;

pub(crate) fn is_same_primitive(a: Primitive, b: Primitive) -> bool
    ensures { result ≡ (primitive_number (primitive_of a) == primitive_number (primitive_of b)) }
{
    a.number() == b.number()
}

fn is_object_element(set: &ClassSet, element: Element) -> bool
    ensures { result ≡ is_object_type (element_in set.now element) }
{
    match element {
        Element::Class(class) => is_object(set, class),
        Element::PrimitiveArray(_) => false,
    }
}

fn is_element_below(set: &ClassSet, s: Element, t: Element) -> bool
    ensures { result ≡ is_assignable set.now (element_in set.now s) (element_in set.now t) }
{
    match s {
        Element::Class(c) => match t {
            Element::Class(d) => is_subclass(set, c, d),
            Element::PrimitiveArray(_) => false,
        },
        Element::PrimitiveArray(a) => match t {
            Element::Class(d) => is_object(set, d),
            Element::PrimitiveArray(b) => is_same_primitive(a, b),
        },
    }
}

/// Whether what is of the first type is of the second, by superclasses alone.
pub fn is_assignable(set: &ClassSet, s: ReferenceType, t: ReferenceType) -> bool
    ensures { result ≡ is_assignable set.now (reference_in set.now s) (reference_in set.now t) }
{
    if s.dimensions == t.dimensions {
        return is_element_below(set, s.element, t.element);
    }
    if s.dimensions < t.dimensions {
        return false;
    }
    is_object_element(set, t.element)
}

fn is_of(set: &ClassSet, t: ReferenceType, s: VerificationType) -> bool
    ensures { result ≡ is_of set.now (reference_in set.now t) (type_in set.now s) }
{
    match s {
        VerificationType::Unusable => false,
        VerificationType::Int => false,
        VerificationType::Null => true,
        VerificationType::Object(s) => is_assignable(set, s, t),
        VerificationType::Uninitialised { .. } => false,
        VerificationType::UninitialisedThis { .. } => false,
    }
}

/// Whether a type is that of what the `new` at an offset made, of a class.
pub(crate) fn is_uninitialised(
    set: &ClassSet,
    offset: u16,
    class: usize,
    s: VerificationType,
) -> bool
    ensures { result ≡ is_uninitialised offset (name_at set.now class) (type_in set.now s) }
{
    match s {
        VerificationType::Unusable => false,
        VerificationType::Int => false,
        VerificationType::Null => false,
        VerificationType::Object(_) => false,
        VerificationType::Uninitialised {
            offset: at,
            class: of,
        } => at == offset && is_same_class(set, of, class),
        VerificationType::UninitialisedThis { .. } => false,
    }
}

pub(crate) fn is_uninitialised_this(set: &ClassSet, class: usize, s: VerificationType) -> bool
    ensures { result ≡ is_uninitialised_this (name_at set.now class) (type_in set.now s) }
{
    match s {
        VerificationType::Unusable => false,
        VerificationType::Int => false,
        VerificationType::Null => false,
        VerificationType::Object(_) => false,
        VerificationType::Uninitialised { .. } => false,
        VerificationType::UninitialisedThis { class: of } => is_same_class(set, of, class),
    }
}

/// The order on the operand stack, where nothing but itself is below what is not usable.
pub fn is_stack_below(set: &ClassSet, s: VerificationType, t: VerificationType) -> bool
    ensures { result ≡ is_stack_below set.now (type_in set.now s) (type_in set.now t) }
{
    match t {
        VerificationType::Unusable => matches!(s, VerificationType::Unusable),
        VerificationType::Int => matches!(s, VerificationType::Int),
        VerificationType::Null => matches!(s, VerificationType::Null),
        VerificationType::Object(t) => is_of(set, t, s),
        VerificationType::Uninitialised { offset, class } => {
            is_uninitialised(set, offset, class, s)
        }
        VerificationType::UninitialisedThis { class } => is_uninitialised_this(set, class, s),
    }
}

/// The order in local variables, where every type is below what is not usable.
pub fn is_local_below(set: &ClassSet, s: VerificationType, t: VerificationType) -> bool
    ensures { result ≡ is_local_below set.now (type_in set.now s) (type_in set.now t) }
{
    match t {
        VerificationType::Unusable => true,
        _ => is_stack_below(set, s, t),
    }
}
