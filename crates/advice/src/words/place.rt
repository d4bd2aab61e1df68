//! Where it is that something is told of, as a line begins.

use crate::told::ToldPlace;
use crate::words::java::say_own_method;
use crate::words::line::Line;
use classfile::source_lines::{LineTable, source_file};
use classfile::{ClassFile, Method, class_name};
use std::alloc::AllocError;

/// The part of a class's name up to its last slash, which is the folder of its package.
fn folder_of(name: &[u8]) -> &[u8] {
    let mut end = 0usize;
    for (at, byte) in name.iter().enumerate() {
        if *byte == b'/' {
            end = at.saturating_add(1);
        }
    }
    name.get(..end).unwrap_or(&[])
}

/// Adds the source of a class, in the folder of its package, and a line of it; or the name of the class file, where
/// it doesn't tell its source.
fn say_source(
    line: &mut Line,
    given: &str,
    file: &ClassFile,
    number: Option<u16>,
) -> Result<(), AllocError> {
    let Some(source) = source_file(file) else {
        return line.say(given);
    };
    line.raw(folder_of(class_name(file)))?;
    line.raw(source)?;
    match number {
        Some(number) => {
            line.say(":")?;
            line.number(usize::from(number))
        }
        None => Ok(()),
    }
}

/// The line of the source at an offset of a method's code, by the table of its lines.
fn line_of(file: &ClassFile, lines: &LineTable, pc: usize) -> Option<u16> {
    source_file(file)?;
    lines.line_at(u16::try_from(pc).ok()?)
}

/// Adds a place in the code of a method, by its line, or else by the method and the offset.
fn say_in_code(
    line: &mut Line,
    given: &str,
    file: &ClassFile,
    method: &Method,
    lines: &LineTable,
    pc: usize,
) -> Result<(), AllocError> {
    if let Some(number) = line_of(file, lines, pc) {
        return say_source(line, given, file, Some(number));
    }
    line.say(given)?;
    line.say(": ")?;
    let (name, descriptor) = (
        file.pool.text(method.name),
        file.pool.text(method.descriptor),
    );
    say_own_method(line, class_name(file), name, descriptor)?;
    line.say(" at offset ")?;
    line.number(pc)
}

/// The offset in the code of a method at which a place in it stands.
fn offset_of(method: &Method, place: ToldPlace) -> Option<usize> {
    match place {
        ToldPlace::Instruction { pc, .. } => Some(pc),
        ToldPlace::Exception { entry, .. } => {
            let entry = method.code()?.exceptions.get(entry)?;
            Some(usize::from(entry.handler))
        }
        _ => None,
    }
}

/// Adds a place in a method, and a colon.
pub(crate) fn say_place(
    line: &mut Line,
    given: &str,
    file: &ClassFile,
    method: &Method,
    lines: &LineTable,
    place: ToldPlace,
) -> Result<(), AllocError> {
    match offset_of(method, place) {
        Some(pc) => say_in_code(line, given, file, method, lines, pc)?,
        None => say_source(line, given, file, line_of(file, lines, 0))?,
    }
    line.say(": ")
}

/// Adds the source of a class, or its file, and a colon.
pub(crate) fn say_class_place(
    line: &mut Line,
    given: &str,
    file: &ClassFile,
) -> Result<(), AllocError> {
    say_source(line, given, file, None)?;
    line.say(": ")
}
