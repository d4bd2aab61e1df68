//! Whether objects are of a type.

ghost use Rattle.std.specs.Prelude.{◌<◌, ◌^◌, ◌≡◌};
ghost use Rattle.linked_code.specs.Subtypes.{is_linked_subtype};
ghost use Rattle.machine_state.specs.type_tests.Tests.{linked_primitive, array_of, IsTypeOfKind, TestsKind};

use heap::{NarrowKind, ObjectKind};
use linked_code::{Element, LinkedProgram, LinkedType, Subclasses, types_are_tested};
use model::Primitive;

/// Whether instances of a class are of a type.
fn is_instance_below(subclasses: &Subclasses, class: u32, of: LinkedType) -> bool
    ensures { class < 2 ^ 16
        → result ≡ is_linked_subtype subclasses.now (record { dimensions = 0; element = Element.Class class }) of }
{
    match u16::try_from(class) {
        Ok(class) => {
            let own = LinkedType {
                dimensions: 0,
                element: Element::Class(class),
            };
            subclasses.is_subtype(own, of)
        }
        Err(_) => false,
    }
}

/// Whether arrays of a primitive type are of a type.
fn is_primitive_array_below(subclasses: &Subclasses, holds: Primitive, of: LinkedType) -> bool
    ensures { result ≡ is_linked_subtype subclasses.now
        (record { dimensions = 1; element = Element.Primitive holds }) of }
{
    let own = LinkedType {
        dimensions: 1,
        element: Element::Primitive(holds),
    };
    subclasses.is_subtype(own, of)
}

/// Whether arrays of references are of a type, by their component type.
fn is_array_below(subclasses: &Subclasses, component: LinkedType, of: LinkedType) -> bool
    ensures { result ≡ is_linked_subtype subclasses.now (array_of component) of }
{
    match of.dimensions.checked_sub(1) {
        Some(dimensions) => {
            let held = LinkedType {
                dimensions,
                element: of.element,
            };
            subclasses.is_subtype(component, held)
        }
        None => of.element == Element::Class(0),
    }
}

fn primitive(kind: NarrowKind) -> Primitive
    ensures { result ≡ linked_primitive kind }
{
    match kind {
        NarrowKind::Boolean => Primitive::Boolean,
        NarrowKind::Char => Primitive::Char,
        NarrowKind::Byte => Primitive::Byte,
        NarrowKind::Short => Primitive::Short,
    }
}

/// Whether objects of a kind are of a type, by its number.
fn is_below(program: &LinkedProgram, kind: ObjectKind, of: LinkedType) -> bool
    ensures { (own : LinkedType) → IsTypeOfKind program.now.components.items kind own
        → result ≡ is_linked_subtype program.now.subclasses own of }
{
    let subclasses = &program.subclasses;
    match kind {
        ObjectKind::Instance { class } => is_instance_below(subclasses, class, of),
        ObjectKind::Ints => is_primitive_array_below(subclasses, Primitive::Int, of),
        ObjectKind::Narrow(narrow) => is_primitive_array_below(subclasses, primitive(narrow), of),
        ObjectKind::References { of: number } => match program.components.get(number as usize) {
            Some(component) => is_array_below(subclasses, *component, of),
            None => false,
        },
    }
}

/// Whether an object of a kind is an instance of a type (JVMS 6.5 checkcast, instanceof, aastore). The class of the
/// type, if it has one, is one against which something is tested.
#[inline]
pub fn is_kind_below(program: &LinkedProgram, kind: ObjectKind, of: LinkedType) -> bool
    ensures { TestsKind program.now kind of result }
{
    types_are_tested();
    is_below(program, kind, of)
}
