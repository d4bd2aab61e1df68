//! The names of classes and array types as texts.

ghost use Rattle.std.specs.Prelude.{◌≡◌, ◌++◌, ◌∷◌, [], IfOk, codes, replicate};
ghost use Rattle.model.specs.ObjectMethods.{primitive_letter};
ghost use Rattle.model.specs.Primitives.{primitive_of};
ghost use Rattle.machine_state.specs.type_tests.Tests.{linked_primitive};
ghost use Rattle.machine_instructions.specs.thread_methods.TypeNames.{array_text, element_text, kind_text, name_in};
ghost use Rattle.machine_instructions.specs.thread_methods.TypeNames.{object_text};

use heap::{Heap, NarrowKind, ObjectKind};
use linked_code::{Element, LinkedProgram, LinkedType};
use machine_state::method_selection::class_at;
use model::Primitive;
use std::alloc::{AllocError, Global};
use string_methods::{appended, appended_units};

/// The units of the name of a class, with dots for slashes; none of one that is not there.
fn name_of(program: &LinkedProgram, class: u32) -> &[u16]
    ensures { result.now ≡ name_in program.now class }
{
    match class_at(program, class) {
        Some(row) => &row.name,
        None => &[],
    }
}

/// The text of the name of a class. The only error is a want of memory.
pub(crate) fn class_name(
    alloc: Global,
    program: &LinkedProgram,
    class: u32,
) -> Result<Vec<u32>, AllocError>
    ensures { IfOk result (λ units. units.items ≡ name_in program.now class) }
{
    appended_units(alloc, &[], name_of(program, class))
}

/// The letter of a primitive type (JVMS 4.3.2).
fn letter(of: Primitive) -> u32
    ensures { result ∷ [] ≡ primitive_letter (primitive_of of) }
{
    match of {
        Primitive::Boolean => 90,
        Primitive::Char => 67,
        Primitive::Byte => 66,
        Primitive::Short => 83,
        Primitive::Int => 73,
    }
}

/// What narrow elements are.
fn primitive(kind: NarrowKind) -> Primitive
    ensures { result ≡ linked_primitive kind }
{
    match kind {
        NarrowKind::Boolean => Primitive::Boolean,
        NarrowKind::Char => Primitive::Char,
        NarrowKind::Byte => Primitive::Byte,
        NarrowKind::Short => Primitive::Short,
    }
}

/// The descriptor of an array of a primitive type.
fn primitive_array(alloc: Global, of: Primitive) -> Result<Vec<u32>, AllocError>
    ensures { IfOk result (λ units. units.items ≡ codes "[" ++ primitive_letter (primitive_of of)) }
{
    appended(alloc, &[91], &[letter(of)])
}

/// So many brackets.
fn brackets(alloc: Global, count: usize) -> Result<Vec<u32>, AllocError>
    ensures { IfOk result (λ units. units.items ≡ replicate count 91) }
{
    let mut units = Vec::new(alloc);
    units.resize(count, 91)?;
    Ok(units)
}

/// A text with what stands behind the brackets of a type.
fn with_element(
    alloc: Global,
    program: &LinkedProgram,
    text: &[u32],
    element: Element,
) -> Result<Vec<u32>, AllocError>
    ensures { IfOk result (λ units. units.items ≡ text.now ++ element_text program.now element) }
{
    match element {
        Element::Primitive(of) => appended(alloc, text, &[letter(of)]),
        Element::Class(class) => {
            let opened = appended(alloc, text, &[76])?;
            let named = appended_units(alloc, &opened, name_of(program, u32::from(class)))?;
            appended(alloc, &named, &[59])
        }
    }
}

/// The descriptor of the type of arrays that hold what is of a type, with dots for slashes.
fn array_of(
    alloc: Global,
    program: &LinkedProgram,
    component: LinkedType,
) -> Result<Vec<u32>, AllocError>
    ensures { IfOk result (λ units. units.items ≡ array_text program.now component) }
{
    let opened = brackets(alloc, usize::from(component.dimensions) + 1)?;
    with_element(alloc, program, &opened, component.element)
}

/// The name of the class of an object of a kind, or the descriptor of its array type.
fn kind_name(
    alloc: Global,
    program: &LinkedProgram,
    kind: ObjectKind,
) -> Result<Vec<u32>, AllocError>
    ensures { IfOk result (λ units. units.items ≡ kind_text program.now kind) }
{
    match kind {
        ObjectKind::Instance { class } => class_name(alloc, program, class),
        ObjectKind::Ints => primitive_array(alloc, Primitive::Int),
        ObjectKind::Narrow(narrow) => primitive_array(alloc, primitive(narrow)),
        ObjectKind::References { of } => match program.components.get(of as usize) {
            Some(component) => array_of(alloc, program, *component),
            None => Ok(Vec::new(alloc)),
        },
    }
}

/// The name of the class of an object, or the descriptor of its array type; both with dots for slashes. Of one that is
/// not there it is empty. The only error is a want of memory.
pub(crate) fn object_name(
    alloc: Global,
    program: &LinkedProgram,
    heap: &Heap,
    object: u32,
) -> Result<Vec<u32>, AllocError>
    ensures { IfOk result (λ units. units.items ≡ object_text program.now heap.now.objects object) }
{
    match heap.class_of(object) {
        Some(kind) => kind_name(alloc, program, kind),
        None => Ok(Vec::new(alloc)),
    }
}
