//! The lines of code.

use crate::source_lines::bytes::u2_at;
use crate::source_lines::source::is_named;
use crate::{ClassFile, Code};

/// Where the code of a line begins.
#[derive(Clone, Copy)]
pub(crate) struct LineStart {
    pub(crate) offset: u16,
    pub(crate) line: u16,
}

/// The entry of a table at a place, counted from 0.
pub(crate) fn entry_at(table: &[u8], place: u16) -> Option<LineStart> {
    let at = 2 + 4 * usize::from(place);
    let offset = u2_at(table, at)?;
    let line = u2_at(table, at + 2)?;
    Some(LineStart { offset, line })
}

/// The later of two entries: of two at one offset the second.
fn later(best: Option<LineStart>, entry: LineStart) -> LineStart {
    match best {
        Some(best) if entry.offset < best.offset => best,
        _ => entry,
    }
}

/// Of a table's entries, and one from another table, the last that begins at an offset or before it.
fn last_in(table: &[u8], offset: u16, from: Option<LineStart>) -> Option<LineStart> {
    let mut best = from;
    let count = u2_at(table, 0)?;
    for place in 0..count {
        match entry_at(table, place) {
            Some(entry) if entry.offset <= offset => best = Some(later(best, entry)),
            Some(_) => {}
            None => return best,
        }
    }
    best
}

/// The number of the line to which the instruction at an offset of a method's code belongs (JVMS 4.7.12), if the
/// class file tells it: that of the entry which begins last, at the offset or before it.
pub fn line_at(file: &ClassFile, code: &Code, offset: u16) -> Option<u16> {
    let mut best = None;
    for attribute in &code.attributes {
        if is_named(file, attribute, b"LineNumberTable") {
            best = last_in(&attribute.bytes, offset, best);
        }
    }
    match best {
        Some(entry) => Some(entry.line),
        None => None,
    }
}
