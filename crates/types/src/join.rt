//! The join of two types (JVMS 4.10.2.2, merging): the least that is above both.

ghost use Rattle.std.specs.Prelude.{◌≡◌, option_map};
ghost use Rattle.model.specs.TypeJoin.{reference_join, object_above, of_join, stack_join, local_join};
ghost use Rattle.hierarchy.specs.Places.{name_at};
ghost use Rattle.types.specs.View.{element_in, reference_in, type_in, object_above_type, array_join};
ghost use Rattle.types.specs.Superclasses.{HasSuperclasses};

use crate::class::{class_join, is_subclass};
use crate::order::{is_same_primitive, is_uninitialised, is_uninitialised_this};
use crate::reference_type::{Element, ReferenceType};
use crate::verification_type::VerificationType;
use hierarchy::ClassSet;
use model::built_in::OBJECT;

/// Object, if the class is below it.
fn object_above(set: &ClassSet, class: usize) -> Option<Element>
    ensures { option_map (element_in set.now) result ≡ object_above set.now (name_at set.now class) }
{
    if is_subclass(set, class, OBJECT) {
        return Some(Element::Class(OBJECT));
    }
    None
}

/// Object, if the element is below it.
fn object_above_element(set: &ClassSet, element: Element) -> Option<Element>
    ensures { option_map (element_in set.now) result ≡ object_above_type set.now (element_in set.now element) }
{
    match element {
        Element::Class(class) => object_above(set, class),
        Element::PrimitiveArray(_) => Some(Element::Class(OBJECT)),
    }
}

fn element_join(set: &ClassSet, s: Element, t: Element) -> Option<Element>
    requires { HasSuperclasses set.now }
    ensures { option_map (element_in set.now) result
        ≡ reference_join set.now (element_in set.now s) (element_in set.now t) }
{
    match s {
        Element::Class(c) => match t {
            Element::Class(d) => match class_join(set, c, d) {
                Some(class) => Some(Element::Class(class)),
                None => None,
            },
            Element::PrimitiveArray(_) => object_above(set, c),
        },
        Element::PrimitiveArray(a) => match t {
            Element::Class(d) => object_above(set, d),
            Element::PrimitiveArray(b) => {
                if is_same_primitive(a, b) {
                    Some(s)
                } else {
                    Some(Element::Class(OBJECT))
                }
            }
        },
    }
}

/// The join of two arrays of so many dimensions, by the join of their components: where that is none, the arrays
/// themselves are still Objects.
fn array_join(set: &ClassSet, dimensions: u8, component: Option<Element>) -> Option<ReferenceType>
    ensures { option_map (reference_in set.now) result
        ≡ array_join dimensions (option_map (element_in set.now) component) }
{
    match component {
        Some(element) => Some(ReferenceType {
            dimensions,
            element,
        }),
        None => {
            if dimensions == 0 {
                return None;
            }
            Some(ReferenceType {
                dimensions: dimensions - 1,
                element: Element::Class(OBJECT),
            })
        }
    }
}

/// The least type that is above both.
pub fn reference_join(set: &ClassSet, s: ReferenceType, t: ReferenceType) -> Option<ReferenceType>
    requires { HasSuperclasses set.now }
    ensures { option_map (reference_in set.now) result
        ≡ reference_join set.now (reference_in set.now s) (reference_in set.now t) }
{
    if s.dimensions == t.dimensions {
        let component = element_join(set, s.element, t.element);
        return array_join(set, s.dimensions, component);
    }
    if s.dimensions < t.dimensions {
        let component = object_above_element(set, s.element);
        return array_join(set, s.dimensions, component);
    }
    let component = object_above_element(set, t.element);
    array_join(set, t.dimensions, component)
}

fn of_join(set: &ClassSet, s: ReferenceType, t: VerificationType) -> Option<VerificationType>
    requires { HasSuperclasses set.now }
    ensures { option_map (type_in set.now) result ≡ of_join set.now (reference_in set.now s) (type_in set.now t) }
{
    match t {
        VerificationType::Unusable => None,
        VerificationType::Int => None,
        VerificationType::Null => Some(VerificationType::Object(s)),
        VerificationType::Object(t) => match reference_join(set, s, t) {
            Some(joined) => Some(VerificationType::Object(joined)),
            None => None,
        },
        VerificationType::Uninitialised { .. } => None,
        VerificationType::UninitialisedThis { .. } => None,
    }
}

/// The join on the operand stack, where there is one.
pub fn stack_join(
    set: &ClassSet,
    s: VerificationType,
    t: VerificationType,
) -> Option<VerificationType>
    requires { HasSuperclasses set.now }
    ensures { option_map (type_in set.now) result ≡ stack_join set.now (type_in set.now s) (type_in set.now t) }
{
    match s {
        VerificationType::Unusable => match t {
            VerificationType::Unusable => Some(t),
            _ => None,
        },
        VerificationType::Int => match t {
            VerificationType::Int => Some(t),
            _ => None,
        },
        VerificationType::Null => match t {
            VerificationType::Null | VerificationType::Object(_) => Some(t),
            _ => None,
        },
        VerificationType::Object(s) => of_join(set, s, t),
        VerificationType::Uninitialised { offset, class } => {
            if is_uninitialised(set, offset, class, t) {
                Some(t)
            } else {
                None
            }
        }
        VerificationType::UninitialisedThis { class } => {
            if is_uninitialised_this(set, class, t) {
                Some(t)
            } else {
                None
            }
        }
    }
}

/// The join in local variables.
pub fn local_join(set: &ClassSet, s: VerificationType, t: VerificationType) -> VerificationType
    requires { HasSuperclasses set.now }
    ensures { type_in set.now result ≡ local_join set.now (type_in set.now s) (type_in set.now t) }
{
    match stack_join(set, s, t) {
        Some(joined) => joined,
        None => VerificationType::Unusable,
    }
}
