//! What a class file has for those who look for faults in a program.

use classfile::{Attribute, ClassFile, Code};

/// How many bytes an entry of a LineNumberTable has.
const LINE_ENTRY: usize = 4;

/// How many bytes an entry of a LocalVariableTable has.
const VARIABLE_ENTRY: usize = 10;

/// The number of two bytes, the higher one first.
fn short_at(bytes: &[u8], at: usize) -> Option<u16> {
    let high = bytes.get(at).copied()?;
    let low = bytes.get(at.saturating_add(1)).copied()?;
    Some(u16::from(high) * 256 + u16::from(low))
}

/// Whether this is the attribute of that name.
fn is_named(file: &ClassFile, attribute: &Attribute, name: &[u8]) -> bool {
    file.utf8(attribute.name) == Some(name)
}

/// The name of the source file (4.7.10).
pub(crate) fn source_of(file: &ClassFile) -> Option<&[u8]> {
    for attribute in &file.attributes {
        if is_named(file, attribute, b"SourceFile") {
            return file.utf8(short_at(&attribute.bytes, 0)?);
        }
    }
    None
}

/// The entries of a table behind its number of them, each of so many bytes.
fn entry_of(table: &[u8], size: usize, number: usize) -> Option<&[u8]> {
    let at = number.saturating_mul(size).saturating_add(2);
    table.get(at..at.saturating_add(size))
}

/// The line that begins at an offset (4.7.12).
pub(crate) fn line_at(file: &ClassFile, code: &Code, pc: usize) -> Option<u16> {
    for attribute in &code.attributes {
        if is_named(file, attribute, b"LineNumberTable") {
            if let Some(line) = line_in(&attribute.bytes, pc) {
                return Some(line);
            }
        }
    }
    None
}

fn line_in(table: &[u8], pc: usize) -> Option<u16> {
    for number in 0..usize::from(short_at(table, 0)?) {
        let entry = entry_of(table, LINE_ENTRY, number)?;
        if usize::from(short_at(entry, 0)?) == pc {
            return short_at(entry, 2);
        }
    }
    None
}

/// The name of a local variable at an offset (4.7.13).
pub(crate) fn variable_at<'a>(
    file: &'a ClassFile,
    code: &Code,
    local: u16,
    pc: usize,
) -> Option<&'a [u8]> {
    for attribute in &code.attributes {
        if is_named(file, attribute, b"LocalVariableTable") {
            if let Some(name) = variable_in(&attribute.bytes, local, pc) {
                return file.utf8(name);
            }
        }
    }
    None
}

/// The index of its name.
fn variable_in(table: &[u8], local: u16, pc: usize) -> Option<u16> {
    for number in 0..usize::from(short_at(table, 0)?) {
        let entry = entry_of(table, VARIABLE_ENTRY, number)?;
        let start = usize::from(short_at(entry, 0)?);
        let length = usize::from(short_at(entry, 2)?);
        let is_there = start <= pc && pc < start.saturating_add(length);
        if is_there && short_at(entry, 8) == Some(local) {
            return short_at(entry, 4);
        }
    }
    None
}
