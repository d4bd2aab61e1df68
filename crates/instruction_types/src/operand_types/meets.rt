//! Whether a type is as wanted.

ghost use Rattle.std.specs.Prelude.{◌≡◌};
ghost use Rattle.model.specs.ReferenceTypes.{ClassType};
ghost use Rattle.model.specs.Types.{is_of, is_receiver, is_instance_or_this, is_array_type, is_byte_array_type, has_type_with, is_byte_or_boolean, type_meets};
ghost use Rattle.hierarchy.specs.Places.{name_at};
ghost use Rattle.model.specs.Primitives.{primitive_of};
ghost use Rattle.types.specs.View.{reference_in, type_in};
ghost use Rattle.instruction_types.specs.operand_types.View.{want_in};

use crate::operand_types::class::is_directly_below;
use crate::operand_types::wants::Want;
use hierarchy::ClassSet;
use model::Primitive;
use types::{Element, ReferenceType, VerificationType, is_assignable, is_same_class};

/// Whether a type is of a reference type, or null.
fn is_of(set: &ClassSet, want: ReferenceType, t: VerificationType) -> bool
    ensures { result ≡ is_of set.now (reference_in set.now want) (type_in set.now t) }
{
    match t {
        VerificationType::Unusable => false,
        VerificationType::Int => false,
        VerificationType::Null => true,
        VerificationType::Object(of) => is_assignable(set, of, want),
        VerificationType::Uninitialised { .. } => false,
        VerificationType::UninitialisedThis { .. } => false,
    }
}

/// Whether a type is not initialised, and may get a call of a constructor of a class.
fn is_receiver(set: &ClassSet, class: usize, t: VerificationType) -> bool
    ensures { result ≡ is_receiver set.now (name_at set.now class) (type_in set.now t) }
{
    match t {
        VerificationType::Unusable => false,
        VerificationType::Int => false,
        VerificationType::Null => false,
        VerificationType::Object(_) => false,
        VerificationType::Uninitialised { class: of, .. } => is_same_class(set, of, class),
        VerificationType::UninitialisedThis { class: of } => {
            is_same_class(set, of, class) || is_directly_below(set, of, class)
        }
    }
}

/// Whether a type is of a class, or null, or `this` in a constructor of the class.
fn is_owner(set: &ClassSet, class: usize, t: VerificationType) -> bool
    ensures { result ≡ is_instance_or_this set.now (name_at set.now class) (type_in set.now t) }
{
    match t {
        VerificationType::Unusable => false,
        VerificationType::Int => false,
        VerificationType::Null => true,
        VerificationType::Object(of) => is_assignable(
            set,
            of,
            ReferenceType {
                dimensions: 0,
                element: Element::Class(class),
            },
        ),
        VerificationType::Uninitialised { .. } => false,
        VerificationType::UninitialisedThis { class: of } => is_same_class(set, of, class),
    }
}

fn is_array_type(set: &ClassSet, t: ReferenceType) -> bool
    ensures { result ≡ is_array_type (reference_in set.now t) }
{
    match t.element {
        Element::Class(_) => t.dimensions > 0,
        Element::PrimitiveArray(_) => true,
    }
}

fn is_byte_or_boolean(primitive: Primitive) -> bool
    ensures { result ≡ is_byte_or_boolean (primitive_of primitive) }
{
    match primitive {
        Primitive::Boolean | Primitive::Byte => true,
        Primitive::Char | Primitive::Short | Primitive::Int => false,
    }
}

fn is_byte_array_type(set: &ClassSet, t: ReferenceType) -> bool
    ensures { result ≡ is_byte_array_type (reference_in set.now t) }
{
    match t.element {
        Element::Class(_) => false,
        Element::PrimitiveArray(of) => t.dimensions == 0 && is_byte_or_boolean(of),
    }
}

fn is_array(set: &ClassSet, t: VerificationType) -> bool
    ensures { result ≡ has_type_with is_array_type (type_in set.now t) }
{
    match t {
        VerificationType::Unusable => false,
        VerificationType::Int => false,
        VerificationType::Null => true,
        VerificationType::Object(of) => is_array_type(set, of),
        VerificationType::Uninitialised { .. } => false,
        VerificationType::UninitialisedThis { .. } => false,
    }
}

fn is_byte_array(set: &ClassSet, t: VerificationType) -> bool
    ensures { result ≡ has_type_with is_byte_array_type (type_in set.now t) }
{
    match t {
        VerificationType::Unusable => false,
        VerificationType::Int => false,
        VerificationType::Null => true,
        VerificationType::Object(of) => is_byte_array_type(set, of),
        VerificationType::Uninitialised { .. } => false,
        VerificationType::UninitialisedThis { .. } => false,
    }
}

/// Whether a type is as an instruction wants it (JVMS 4.10.1.2, 4.10.1.4).
pub fn type_meets(set: &ClassSet, want: Want, t: VerificationType) -> bool
    ensures { result ≡ type_meets set.now (want_in set.now want) (type_in set.now t) }
{
    match want {
        Want::AnyWord => !matches!(t, VerificationType::Unusable),
        Want::AnInt => matches!(t, VerificationType::Int),
        Want::AnyReference => !matches!(t, VerificationType::Unusable | VerificationType::Int),
        Want::AReference(of) => is_of(set, of, t),
        Want::AReceiver { class } => is_receiver(set, class, t),
        Want::AnOwner { class } => is_owner(set, class, t),
        Want::AnArray => is_array(set, t),
        Want::AByteArray => is_byte_array(set, t),
    }
}
