//! What descriptors and class constants describe.

ghost use Rattle.std.specs.Prelude.{◌≡◌, ◌≤◌, ◌++◌, map, IfOk, IfSome};
ghost use Rattle.std.specs.List.{list_any};
ghost use Rattle.model.specs.Classes.{Program};
ghost use Rattle.model.specs.ReferenceTypes.{ClassType};
ghost use Rattle.model.specs.Resolution.{is_missing};
ghost use Rattle.model.specs.DescriptorScan.{dimensions_of};
ghost use Rattle.model.specs.DescribedTypes.{arrays, declared_of, returned_type, field_declared, parameters_declared, results_declared, type_named, made_type, reference_declared, verification_type};
ghost use Rattle.constant_pool.specs.descriptors.View.{field_of};
ghost use Rattle.model.specs.Primitives.{primitive_of};
ghost use Rattle.types.specs.View.{reference_in, type_in};
ghost use Rattle.types.specs.described_types.Described.{Gives, HasDimensions, type_missing, declared_missing, primitive_declared, parameters_in, results_in};

use crate::described_types::made::class_named;
use crate::{Element, ReferenceType, VerificationType};
use constant_pool::descriptors::{
    Element as ElementType, Field, Method, parse_field, parse_method,
};
use hierarchy::ClassSet;
use model::Primitive;
use std::alloc::{AllocError, Global};

/// The types that a method takes and gives.
#[derive(Drop)]
pub struct MethodTypes {
    /// From left to right.
    pub parameters: Vec<VerificationType>,
    /// The type of the result, or `None` where it is void.
    pub returns: Option<VerificationType>,
}

/// An array of so many dimensions of a class, or the class itself where there are none.
fn class_type(set: &ClassSet, dimensions: u8, name: &[u8]) -> Option<ReferenceType>
    ensures value { Gives (reference_in set.now) (is_missing set.now name.now)
        (arrays dimensions (made_type set.now (ClassType name.now)))
        result }
    ensures few { IfSome result (λ t. t.dimensions ≤ dimensions) }
{
    let Some(element) = class_named(set, name) else {
        return None;
    };
    Some(ReferenceType {
        dimensions,
        element,
    })
}

/// An array of so many dimensions of a primitive type, or an int where there are none (JVMS 2.11.1).
fn primitive_type(dimensions: u8, primitive: Primitive) -> VerificationType
    ensures value { (files : Program) → type_in files result
        ≡ verification_type files (primitive_declared dimensions (primitive_of primitive)) }
    ensures few { HasDimensions dimensions result }
{
    if dimensions == 0 {
        return VerificationType::Int;
    }
    VerificationType::Object(ReferenceType {
        dimensions: dimensions - 1,
        element: Element::PrimitiveArray(primitive),
    })
}

/// The type that a descriptor's field declares, or `None` where its class is not in the set.
fn declared_type(set: &ClassSet, field: Field<'_>) -> Option<VerificationType>
    ensures value { Gives (type_in set.now) (declared_missing set.now (declared_of (field_of field.entry)))
        (verification_type set.now (declared_of (field_of field.entry))) result }
    ensures few { IfSome result (HasDimensions field.entry.dimensions) }
{
    let dimensions = field.dimensions;
    match field.element {
        ElementType::Object(name) => match class_type(set, dimensions, name) {
            Some(class) => Some(VerificationType::Object(class)),
            None => None,
        },
        ElementType::Byte => Some(primitive_type(dimensions, Primitive::Byte)),
        ElementType::Char => Some(primitive_type(dimensions, Primitive::Char)),
        ElementType::Double => Some(primitive_type(dimensions, Primitive::Int)),
        ElementType::Float => Some(primitive_type(dimensions, Primitive::Int)),
        ElementType::Int => Some(primitive_type(dimensions, Primitive::Int)),
        ElementType::Long => Some(primitive_type(dimensions, Primitive::Int)),
        ElementType::Short => Some(primitive_type(dimensions, Primitive::Short)),
        ElementType::Boolean => Some(primitive_type(dimensions, Primitive::Boolean)),
    }
}

/// The type that a field's descriptor describes (JVMS 4.3.2), or `None` where its class is not in the set. A text
/// that is no descriptor stands for an int, as in the model.
pub fn field_type(set: &ClassSet, descriptor: &[u8]) -> Option<VerificationType>
    ensures value { Gives (type_in set.now) (declared_missing set.now (field_declared descriptor.now))
        (verification_type set.now (field_declared descriptor.now)) result }
    ensures few { IfSome result (HasDimensions (dimensions_of descriptor.now)) }
{
    match parse_field(descriptor) {
        Some(field) => declared_type(set, field),
        None => Some(VerificationType::Int),
    }
}

fn class_constant(set: &ClassSet, name: &[u8]) -> Option<ReferenceType>
    ensures value { Gives (reference_in set.now) (is_missing set.now name.now)
        (made_type set.now (ClassType name.now)) result }
    ensures few { IfSome result (λ t. t.dimensions ≤ dimensions_of name.now) }
{
    class_type(set, 0, name)
}

fn array_constant(set: &ClassSet, name: &[u8]) -> Option<ReferenceType>
    ensures value { Gives (reference_in set.now)
        (type_missing set.now (reference_declared name.now (field_declared name.now)))
        (made_type set.now (reference_declared name.now (field_declared name.now))) result }
    ensures few { IfSome result (λ t. t.dimensions ≤ dimensions_of name.now) }
{
    match field_type(set, name) {
        Some(VerificationType::Object(array)) => Some(array),
        Some(_) => class_constant(set, name),
        None => None,
    }
}

/// The type that a class constant names (JVMS 4.4.1): a class by its name, and an array by its descriptor; `None`
/// where the class, or that of the array's elements, is not in the set.
pub fn named_type(set: &ClassSet, name: &[u8]) -> Option<ReferenceType>
    ensures value { Gives (reference_in set.now) (type_missing set.now (type_named name.now))
        (made_type set.now (type_named name.now))
        result }
    ensures few { IfSome result (λ t. t.dimensions ≤ dimensions_of name.now) }
{
    match name {
        [b'[', ..] => array_constant(set, name),
        _ => class_constant(set, name),
    }
}

fn declared_types(
    alloc: Global,
    set: &ClassSet,
    fields: &[Field<'_>],
) -> Result<Option<Vec<VerificationType>>, AllocError>
    ensures { IfOk result (λ found. Gives (λ v. map (type_in set.now) v.items)
        (list_any (λ f. declared_missing set.now (declared_of (field_of f))) fields.now)
        (map (λ f. verification_type set.now (declared_of (field_of f))) fields.now) found) }
{
    let mut types = Vec::with_capacity(alloc, fields.len())?;
    'fields: for field in fields {
        let Some(t) = declared_type(set, *field) else {
            return Ok(None);
        };
        types.push(t)?;
    }
    Ok(Some(types))
}

/// The types of a method, or `None` where the class of one is not in the set.
fn types_of(
    alloc: Global,
    set: &ClassSet,
    method: &Method<'_>,
) -> Result<Option<MethodTypes>, AllocError>
    ensures parameters { IfOk result (λ found. Gives (parameters_in set.now)
        (list_any (declared_missing set.now) (map declared_of method.now.parameters
        ++ returned_type method.now.returns))
        (map (verification_type set.now) (map declared_of method.now.parameters)) found) }
    ensures returns { IfOk result (λ found. Gives (results_in set.now)
        (list_any (declared_missing set.now) (map declared_of method.now.parameters
        ++ returned_type method.now.returns))
        (map (verification_type set.now) (returned_type method.now.returns)) found) }
{
    let found = declared_types(alloc, set, method.parameters())?;
    let Some(parameters) = found else {
        return Ok(None);
    };
    let Some(field) = method.returns() else {
        return Ok(Some(MethodTypes {
            parameters,
            returns: None,
        }));
    };
    let Some(returned) = declared_type(set, field) else {
        return Ok(None);
    };
    Ok(Some(MethodTypes {
        parameters,
        returns: Some(returned),
    }))
}

/// The types that a method's descriptor describes (JVMS 4.3.3), or `None` where one of its classes is not in the set.
/// A text that is no descriptor has no parameters and no result, as in the model.
pub fn method_types(
    alloc: Global,
    set: &ClassSet,
    descriptor: &[u8],
) -> Result<Option<MethodTypes>, AllocError>
    ensures parameters { IfOk result (λ found. Gives (parameters_in set.now)
        (list_any (declared_missing set.now) (parameters_declared descriptor.now
        ++ results_declared descriptor.now))
        (map (verification_type set.now) (parameters_declared descriptor.now)) found) }
    ensures returns { IfOk result (λ found. Gives (results_in set.now)
        (list_any (declared_missing set.now) (parameters_declared descriptor.now
        ++ results_declared descriptor.now))
        (map (verification_type set.now) (results_declared descriptor.now)) found) }
{
    let parsed = parse_method(alloc, descriptor)?;
    match parsed {
        Some(method) => types_of(alloc, set, &method),
        None => Ok(Some(MethodTypes {
            parameters: Vec::new(alloc),
            returns: None,
        })),
    }
}
