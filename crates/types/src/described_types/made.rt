//! Types as the verifier makes them: an interface counts as java/lang/Object (JVMS 4.10.1.2).

ghost use Rattle.std.specs.Prelude.{◌≡◌, Option, Some, None, nat_lt, option_map, if◌then◌else◌};
ghost use Rattle.model.specs.Names.{java_lang_object};
ghost use Rattle.model.specs.Classes.{Program, is_interface};
ghost use Rattle.model.specs.ReferenceTypes.{ClassType, ReferenceArray};
ghost use Rattle.model.specs.Resolution.{is_missing};
ghost use Rattle.model.specs.DescribedTypes.{made_type, component_of, component_type};
ghost use Rattle.hierarchy.specs.Places.{name_at};
ghost use Rattle.types.specs.View.{element_in, reference_in, type_in};
ghost use Rattle.types.specs.described_types.Described.{Gives};

use crate::{Element, ReferenceType, VerificationType};
use hierarchy::ClassSet;
use model::built_in::OBJECT;

/// The class as which a class counts.
fn made_class(set: &ClassSet, class: usize) -> usize
    ensures { ClassType (name_at set.now result) ≡ made_type set.now (ClassType (name_at set.now class)) }
{
    if set.is_interface(set.name_at(class)) {
        return OBJECT;
    }
    class
}

/// The type as which a type counts: an interface is java/lang/Object, in array types too.
pub fn made_type(set: &ClassSet, t: ReferenceType) -> ReferenceType
    ensures { reference_in set.now result ≡ made_type set.now (reference_in set.now t) }
{
    match t.element {
        Element::Class(class) => ReferenceType {
            dimensions: t.dimensions,
            element: Element::Class(made_class(set, class)),
        },
        Element::PrimitiveArray(_) => t,
    }
}

/// The class of a name, as which it counts.
pub(crate) fn class_named(set: &ClassSet, name: &[u8]) -> Option<Element>
    ensures { Gives (element_in set.now) (is_missing set.now name.now) (made_type set.now (ClassType name.now)) result }
{
    let Some(place) = set.place_of(name) else {
        return None;
    };
    Some(Element::Class(made_class(set, place)))
}

fn component_of(set: &ClassSet, array: ReferenceType) -> VerificationType
    ensures { type_in set.now result ≡ component_of set.now (reference_in set.now array) }
{
    if array.dimensions == 0 {
        return match array.element {
            Element::Class(_) => VerificationType::Null,
            Element::PrimitiveArray(_) => VerificationType::Int,
        };
    }
    let component = ReferenceType {
        dimensions: array.dimensions - 1,
        element: array.element,
    };
    VerificationType::Object(made_type(set, component))
}

/// The type that `aaload` gives of an array of a type: that of its components, and null of null (JVMS 6.5 aaload).
pub fn component_type(set: &ClassSet, t: VerificationType) -> VerificationType
    ensures { type_in set.now result ≡ component_type set.now (type_in set.now t) }
{
    match t {
        VerificationType::Unusable => VerificationType::Null,
        VerificationType::Int => VerificationType::Null,
        VerificationType::Null => VerificationType::Null,
        VerificationType::Object(array) => component_of(set, array),
        VerificationType::Uninitialised { .. } => VerificationType::Null,
        VerificationType::UninitialisedThis { .. } => VerificationType::Null,
    }
}

/// The type of an array with components of a type (JVMS 6.5 anewarray), or `None` where it would have 256 dimensions.
pub fn array_of(component: ReferenceType) -> Option<ReferenceType>
    ensures { (files : Program) → option_map (reference_in files) result
        ≡ (if nat_lt component.dimensions 255 then Some (ReferenceArray (reference_in files component)) else None) }
{
    if component.dimensions == 255 {
        return None;
    }
    Some(ReferenceType {
        dimensions: component.dimensions + 1,
        element: component.element,
    })
}
