//! The offsets at which a line begins.

ghost use Rattle.std.specs.Prelude.{◌≡◌, ◌++◌, ◌<◌, ◌≤◌, ◌==◌, ◌+◌, ◌*◌, false, length, map, OnOk, slice_index_or};
ghost use Rattle.class_tree.specs.View.{code_of, skipped_of};
ghost use Rattle.code_places.specs.Lines.{begins_line as line_begins, is_line_table as names_lines};
ghost use Rattle.code_places.specs.Lines.{line_count as count_of, line_offsets as offsets_in, number_at as number_in};
ghost use Rattle.code_places.specs.Lines.{offsets_of_line};
ghost use Rattle.code_places.specs.Points.{points_at};

use crate::points::Point;
use classfile::{Attribute, ClassFile, Code};
use std::alloc::AllocError;

/// Whether an attribute of code is a table of lines (JVMS 4.7.12).
fn is_line_table(file: &ClassFile, attribute: &Attribute) -> bool
    ensures { result ≡ names_lines file.now.pool (skipped_of attribute.now) }
{
    match file.utf8(attribute.name) {
        Some(name) => name == b"LineNumberTable".as_slice(),
        None => false,
    }
}

/// The two bytes from an offset on as a number, where they are there.
fn number_at(bytes: &[u8], at: usize) -> u16
    requires { at + 1 < length bytes.now }
    ensures { result ≡ number_in bytes.now at }
{
    u16::from(bytes[at]) * 256 + u16::from(bytes[at + 1])
}

/// How many whole entries a table of lines has, of as many as it says.
fn line_count(table: &[u8]) -> usize
    ensures value { result ≡ count_of table.now }
    ensures within { 4 * result + 2 ≤ length table.now + 2 }
{
    if table.len() < 2 {
        return 0;
    }
    usize::from(number_at(table, 0)).min((table.len() - 2) / 4)
}

/// Whether an entry of a table of lines is of this line, and an instruction begins at its offset.
fn begins_line(starts: &[bool], table: &[u8], line: u16, entry: usize) -> bool
    requires { 4 * entry + 5 < length table.now }
    ensures { result ≡ line_begins starts.now table.now line entry }
{
    let offset = number_at(table, 4 * entry + 2);
    let begun = number_at(table, 4 * entry + 4);
    let is_start = starts.get(usize::from(offset)).copied().unwrap_or(false);
    begun == line && is_start
}

/// Adds the offsets at which a table of lines begins a line, where an instruction begins there.
fn add_from_table(
    points: &mut Vec<Point>,
    method: u32,
    table: &[u8],
    line: u16,
    starts: &[bool],
) -> Result<(), AllocError>
    ensures { OnOk result (points.new.items ≡ points.old.items
        ++ points_at method (offsets_in starts.now table.now line)) }
{
    'entries: for entry in 0..line_count(table) {
        if begins_line(starts, table, line, entry) {
            let offset = number_at(table, 4 * entry + 2);
            points.push(Point { method, offset })?;
        }
    }
    Ok(())
}

/// The line that a table of lines begins at an offset; of several the last one.
fn begun_in(table: &[u8], offset: u16) -> Option<u16> {
    let mut line = None;
    'entries: for entry in 0..line_count(table) {
        if number_at(table, 4 * entry + 2) == offset {
            line = Some(number_at(table, 4 * entry + 4));
        }
    }
    line
}

/// The line that the class file tells to begin at an offset of a method's code (JVMS 4.7.12), if it tells one; of
/// several the last one.
pub fn line_begun(file: &ClassFile, code: &Code, offset: u16) -> Option<u16> {
    let mut line = None;
    'attributes: for attribute in &code.attributes {
        if is_line_table(file, attribute) {
            if let Some(found) = begun_in(&attribute.bytes, offset) {
                line = Some(found);
            }
        }
    }
    line
}

/// Adds the offsets of a method's code at which a line begins.
pub(crate) fn add_line(
    points: &mut Vec<Point>,
    method: u32,
    file: &ClassFile,
    code: &Code,
    line: u16,
    starts: &[bool],
) -> Result<(), AllocError>
    ensures { OnOk result (points.new.items ≡ points.old.items
        ++ points_at method (offsets_of_line starts.now file.now.pool (code_of code.now).attributes line)) }
{
    'attributes: for attribute in &code.attributes {
        if is_line_table(file, attribute) {
            add_from_table(points, method, &attribute.bytes, line, starts)?;
        }
    }
    Ok(())
}
