//! Objects by their types and numbers.

ghost use Rattle.std.specs.Prelude.{◌≡◌, ◌+◌};
ghost use Rattle.model.specs.BuiltInNumbers.{first_class_reference};

use crate::names::ProgramNames;
use crate::numbers::{push_number, push_words};
use heap::{Heap, NarrowKind, ObjectKind};
use linked_code::{Element, LinkedType};
use model::Primitive;
use model::built_in::{CLASS, FIRST_CLASS_OBJECT};
use std::alloc::AllocError;

/// The type of an array whose elements have fewer than 32 bits.
fn narrow_name(kind: NarrowKind) -> &'static str {
    match kind {
        NarrowKind::Boolean => "boolean[]",
        NarrowKind::Char => "char[]",
        NarrowKind::Byte => "byte[]",
        NarrowKind::Short => "short[]",
    }
}

fn primitive_name(primitive: Primitive) -> &'static str {
    match primitive {
        Primitive::Boolean => "boolean",
        Primitive::Char => "char",
        Primitive::Byte => "byte",
        Primitive::Short => "short",
        Primitive::Int => "int",
    }
}

/// The Class object of a class, by its number.
pub fn class_object_of(class: u16) -> u32
    ensures { result ≡ first_class_reference + class }
{
    FIRST_CLASS_OBJECT + u32::from(class)
}

/// The number of the class of which an object is the Class object.
fn class_of_object(kind: ObjectKind, object: u32) -> Option<u32> {
    match kind {
        ObjectKind::Instance { class } if class == CLASS as u32 => object.checked_sub(
            FIRST_CLASS_OBJECT,
        ),
        _ => None,
    }
}

impl ProgramNames<'_> {
    /// The name of a reference type: `int[][]`.
    fn push_type(&self, text: &mut Vec<u8>, of: LinkedType) -> Result<(), AllocError> {
        match of.element {
            Element::Class(class) => {
                text.extend_from_slice(self.class_name(u32::from(class)))?;
            }
            Element::Primitive(primitive) => push_words(text, primitive_name(primitive))?,
        }
        for _ in 0..of.dimensions {
            push_words(text, "[]")?;
        }
        Ok(())
    }

    /// The type of an object.
    fn push_kind(&self, text: &mut Vec<u8>, kind: ObjectKind) -> Result<(), AllocError> {
        match kind {
            ObjectKind::Instance { class } => Ok(text.extend_from_slice(self.class_name(class))?),
            ObjectKind::Ints => push_words(text, "int[]"),
            ObjectKind::Narrow(narrow) => push_words(text, narrow_name(narrow)),
            ObjectKind::References { of } => {
                if let Some(component) = self.program.components.get(of as usize) {
                    self.push_type(text, *component)?;
                }
                push_words(text, "[]")
            }
        }
    }

    /// An object by its type and its number among all objects.
    fn push_numbered(
        &self,
        text: &mut Vec<u8>,
        kind: ObjectKind,
        object: u32,
    ) -> Result<(), AllocError> {
        self.push_kind(text, kind)?;
        push_words(text, " #")?;
        push_number(text, u64::from(object))
    }

    /// Writes an object: `Counter.class` where it is the Class object of a class, and else its class, or the type of
    /// an array, and its number among all objects, which are numbered from 0 in the order in which they were made:
    /// `Counter #34`. Nothing is written of one that isn't there.
    pub fn push_object(
        &self,
        text: &mut Vec<u8>,
        heap: &Heap,
        object: u32,
    ) -> Result<(), AllocError> {
        let Some(kind) = heap.class_of(object) else {
            return Ok(());
        };
        match class_of_object(kind, object) {
            Some(class) => {
                text.extend_from_slice(self.class_name(class))?;
                push_words(text, ".class")
            }
            None => self.push_numbered(text, kind, object),
        }
    }
}
