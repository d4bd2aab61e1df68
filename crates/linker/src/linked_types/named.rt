//! The types that class constants name.

ghost use Rattle.std.specs.Prelude.{◌≡◌, false, true, is_some, IfSome};
ghost use Rattle.model.specs.ReferenceTypes.{ClassType};
ghost use Rattle.model.specs.DescribedTypes.{arrays, declared_of, field_declared, reference_declared, type_named};
ghost use Rattle.constant_pool.specs.descriptors.View.{field_of};
ghost use Rattle.types.specs.described_types.Described.{primitive_declared, type_missing};
ghost use Rattle.linker.specs.Linking.{IsLinked};
ghost use Rattle.model.specs.Primitives.{primitive_of};
ghost use Rattle.linked_code.specs.Numbers.{IsType};
ghost use Rattle.linker.specs.linked_types.Types.{IsNumbered};

use constant_pool::descriptors::{Element as ElementType, Field, parse_field};
use hierarchy::ClassSet;
use linked_code::{Element, LinkedType};
use model::Primitive;

/// An array of so many dimensions of a class, or the class itself where there are none.
fn class_type(set: &ClassSet, dimensions: u8, name: &[u8]) -> Option<LinkedType>
    requires { IsLinked set.now }
    ensures { IsNumbered set.now (arrays dimensions (ClassType name.now)) result }
{
    let Some(place) = set.place_of(name) else {
        return None;
    };
    Some(LinkedType {
        dimensions,
        element: Element::Class(place as u16),
    })
}

/// An array of so many dimensions of a primitive type; where there are none, a class by the name.
fn primitive_type(set: &ClassSet, name: &[u8], dimensions: u8, of: Primitive) -> Option<LinkedType>
    requires { IsLinked set.now }
    ensures { IsNumbered set.now
        (reference_declared name.now (primitive_declared dimensions (primitive_of of))) result }
{
    if dimensions == 0 {
        return class_type(set, 0, name);
    }
    Some(LinkedType {
        dimensions,
        element: Element::Primitive(of),
    })
}

/// The type that a name stands for as a descriptor; arrays of long, float and double stand as those of int, as in the
/// model.
fn described_type(set: &ClassSet, name: &[u8], field: Field<'_>) -> Option<LinkedType>
    requires { IsLinked set.now }
    ensures { IsNumbered set.now (reference_declared name.now (declared_of (field_of field.entry))) result }
{
    let dimensions = field.dimensions;
    match field.element {
        ElementType::Object(class) => class_type(set, dimensions, class),
        ElementType::Byte => primitive_type(set, name, dimensions, Primitive::Byte),
        ElementType::Char => primitive_type(set, name, dimensions, Primitive::Char),
        ElementType::Double => primitive_type(set, name, dimensions, Primitive::Int),
        ElementType::Float => primitive_type(set, name, dimensions, Primitive::Int),
        ElementType::Int => primitive_type(set, name, dimensions, Primitive::Int),
        ElementType::Long => primitive_type(set, name, dimensions, Primitive::Int),
        ElementType::Short => primitive_type(set, name, dimensions, Primitive::Short),
        ElementType::Boolean => primitive_type(set, name, dimensions, Primitive::Boolean),
    }
}

fn array_type(set: &ClassSet, name: &[u8]) -> Option<LinkedType>
    requires { IsLinked set.now }
    ensures { IsNumbered set.now (reference_declared name.now (field_declared name.now)) result }
{
    match parse_field(name) {
        Some(field) => described_type(set, name, field),
        None => class_type(set, 0, name),
    }
}

fn numbered_type(set: &ClassSet, name: &[u8]) -> Option<LinkedType>
    requires { IsLinked set.now }
    ensures { IsNumbered set.now (type_named name.now) result }
{
    match name {
        [b'[', ..] => array_type(set, name),
        _ => class_type(set, 0, name),
    }
}

/// The type that a class constant names (JVMS 4.4.1), an interface as itself: a class by its name, and an array by its
/// descriptor. `None` exactly where the class, or that of the array's elements, is not in the set. Takes no memory.
pub fn named_type(set: &ClassSet, name: &[u8]) -> Option<LinkedType>
    requires { IsLinked set.now }
    ensures value { IfSome result (λ t. IsType set.now t (type_named name.now)) }
    ensures some { type_missing set.now (type_named name.now) ≡ false → is_some result ≡ true }
{
    numbered_type(set, name)
}
