//! Names as a source of Java has them: of classes, of types, and of members.

use crate::words::line::Line;
use constant_pool::descriptors::{Element, Field, parse_field, parse_method};
use std::alloc::{AllocError, Global};

/// So many parameters of a method are told at most.
const MOST_PARAMETERS: usize = 12;

/// Adds the name of a class, with dots where the class file has slashes; of a very long one the begin, and dots.
pub(crate) fn say_class_name(line: &mut Line, name: &[u8]) -> Result<(), AllocError> {
    let mut dotted = Vec::new(line.alloc());
    for byte in name.iter().take(201) {
        dotted.push(if *byte == b'/' { b'.' } else { *byte })?;
    }
    line.raw(&dotted)
}

/// Adds a type.
fn say_type(line: &mut Line, field: Field<'_>) -> Result<(), AllocError> {
    match field.element {
        Element::Byte => line.say("byte")?,
        Element::Char => line.say("char")?,
        Element::Double => line.say("double")?,
        Element::Float => line.say("float")?,
        Element::Int => line.say("int")?,
        Element::Long => line.say("long")?,
        Element::Object(name) => say_class_name(line, name)?,
        Element::Short => line.say("short")?,
        Element::Boolean => line.say("boolean")?,
    }
    for _ in 0..field.dimensions {
        line.say("[]")?;
    }
    Ok(())
}

/// Adds the type that a descriptor describes, or the name of a class.
pub(crate) fn say_class(line: &mut Line, name: &[u8]) -> Result<(), AllocError> {
    match (name, parse_field(name)) {
        ([b'[', ..], Some(field)) => say_type(line, field),
        _ => say_class_name(line, name),
    }
}

/// Adds the type of a field, by its descriptor.
fn say_field_type(line: &mut Line, descriptor: &[u8]) -> Result<(), AllocError> {
    match parse_field(descriptor) {
        Some(field) => say_type(line, field),
        None => line.raw(descriptor),
    }
}

/// Adds `(int, java.lang.String[])`, by the descriptor of a method.
fn say_parameters(line: &mut Line, descriptor: &[u8]) -> Result<(), AllocError> {
    let Some(method) = parse_method(line.alloc(), descriptor)? else {
        return line.raw(descriptor);
    };
    line.say("(")?;
    for (number, parameter) in method.parameters().iter().enumerate() {
        if number > 0 {
            line.say(", ")?;
        }
        if number == MOST_PARAMETERS {
            line.say("..")?;
            break;
        }
        say_type(line, *parameter)?;
    }
    line.say(")")
}

/// The last name of a class's name, as `Entry` of `java/util/Map$Entry`, or `Map$Entry` where no dollar parts it.
fn last_name(class: &[u8]) -> &[u8] {
    let mut last = class;
    for (at, byte) in class.iter().enumerate() {
        if *byte == b'/' || *byte == b'$' {
            let after = class.get(at.saturating_add(1)..).unwrap_or(&[]);
            last = if after.is_empty() { last } else { after };
        }
    }
    last
}

/// Adds a method that a class declares: `deposit(int)`, `Account(int)` for a constructor, or that it is the
/// initialiser.
pub(crate) fn say_own_method(
    line: &mut Line,
    class: &[u8],
    name: &[u8],
    descriptor: &[u8],
) -> Result<(), AllocError> {
    if name == b"<clinit>".as_slice() {
        return line.say("the static initialiser");
    }
    if name == b"<init>".as_slice() {
        line.raw(last_name(class))?;
    } else {
        line.raw(name)?;
    }
    say_parameters(line, descriptor)
}

/// Adds a method that is declared, with its result: `long twice(long)`.
pub(crate) fn say_declared_method(
    line: &mut Line,
    class: &[u8],
    name: &[u8],
    descriptor: &[u8],
) -> Result<(), AllocError> {
    if name != b"<init>".as_slice() {
        match parse_method(line.alloc(), descriptor)? {
            Some(method) => match method.returns() {
                Some(field) => say_type(line, field)?,
                None => line.say("void")?,
            },
            None => {}
        }
        line.say(" ")?;
    }
    say_own_method(line, class, name, descriptor)
}

/// Adds a field that is declared, behind its type: `long total`.
pub(crate) fn say_declared_field(
    line: &mut Line,
    name: &[u8],
    descriptor: &[u8],
) -> Result<(), AllocError> {
    say_field_type(line, descriptor)?;
    line.say(" ")?;
    line.raw(name)
}

/// Adds a method that is called: `java.lang.Thread.sleep(long)`, or `new java.lang.Thread(java.lang.String)`.
pub(crate) fn say_called(
    line: &mut Line,
    class: &[u8],
    name: &[u8],
    descriptor: &[u8],
) -> Result<(), AllocError> {
    if name == b"<init>".as_slice() {
        line.say("new ")?;
        say_class(line, class)?;
    } else {
        say_class(line, class)?;
        line.say(".")?;
        line.raw(name)?;
    }
    say_parameters(line, descriptor)
}

/// Adds a field that is named: `java.lang.System.in`.
pub(crate) fn say_named_field(
    line: &mut Line,
    class: &[u8],
    name: &[u8],
) -> Result<(), AllocError> {
    say_class(line, class)?;
    line.say(".")?;
    line.raw(name)
}

/// A type that this machine leaves out.
#[derive(Clone, Copy, PartialEq)]
pub(crate) enum LeftOutType {
    Long,
    Float,
    Double,
}

impl LeftOutType {
    /// It, by the element of a type.
    fn of_element(element: Element<'_>) -> Option<LeftOutType> {
        match element {
            Element::Long => Some(LeftOutType::Long),
            Element::Float => Some(LeftOutType::Float),
            Element::Double => Some(LeftOutType::Double),
            _ => None,
        }
    }

    /// How Java writes it.
    pub(crate) fn word(self) -> &'static str {
        match self {
            LeftOutType::Long => "long",
            LeftOutType::Float => "float",
            LeftOutType::Double => "double",
        }
    }

    /// What to write instead, behind what has it.
    pub(crate) fn cure(self) -> &'static str {
        match self {
            LeftOutType::Long => ": take int",
            LeftOutType::Float | LeftOutType::Double => ": take int, as cents for a price",
        }
    }
}

/// The first type that is left out of those that a descriptor names.
pub(crate) fn left_out_type(
    alloc: Global,
    descriptor: &[u8],
) -> Result<Option<LeftOutType>, AllocError> {
    if let Some(field) = parse_field(descriptor) {
        return Ok(LeftOutType::of_element(field.element));
    }
    let Some(method) = parse_method(alloc, descriptor)? else {
        return Ok(None);
    };
    for parameter in method.parameters() {
        if let Some(found) = LeftOutType::of_element(parameter.element) {
            return Ok(Some(found));
        }
    }
    match method.returns() {
        Some(field) => Ok(LeftOutType::of_element(field.element)),
        None => Ok(None),
    }
}
