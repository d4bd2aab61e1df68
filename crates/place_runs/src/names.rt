//! The place of a point: by the names of its class and its method.

use code_places::{Point, line_begun};
use hierarchy::ClassSet;
use linker::Linked;
use method_tables::method_links::MethodNumbers;
use place_texts::{Place, Position};
use std::alloc::{AllocError, Global};
use types::method_code::MethodCode;

/// Whether a name can stand in a word: no byte of it is white space, `#`, or one of these marks.
fn is_plain(name: &[u8], marks: &[u8]) -> bool {
    'bytes: for byte in name {
        if *byte <= b' ' || *byte == b'#' || marks.contains(byte) {
            return false;
        }
    }
    true
}

/// Whether a class has another method with code of this name.
fn is_overloaded(set: &ClassSet, class: usize, name: &[u8]) -> bool {
    let Some(file) = set.class_at(class) else {
        return false;
    };
    let mut count = 0usize;
    'methods: for method in &file.methods {
        if file.pool.text(method.name) == name && method.code().is_some() && count < 2 {
            count += 1;
        }
    }
    count > 1
}

/// The place of a point, by its line or by its offset. None where the line of its offset isn't told to begin there, or
/// where a name can't stand in a word.
pub(crate) fn place_at(
    alloc: Global,
    linked: &Linked,
    point: Point,
    by_line: bool,
) -> Result<Option<Place>, AllocError> {
    let numbers = MethodNumbers::new(alloc, linked.set())?;
    let Some(found) = numbers.place(point.method as usize) else {
        return Ok(None);
    };
    let Some(method) = MethodCode::new(linked.hierarchy(), found.class, found.member) else {
        return Ok(None);
    };
    let position = if by_line {
        match line_begun(method.file(), method.code(), point.offset) {
            Some(line) => Position::Line(line),
            None => return Ok(None),
        }
    } else {
        Position::Offset(point.offset)
    };
    let class = linked.set().name_at(found.class);
    let name = method.name();
    if !is_plain(class, b".") || !is_plain(name, b"(:+") || !is_plain(method.descriptor(), b":+") {
        return Ok(None);
    }
    let descriptor = if is_overloaded(linked.set(), found.class, name) {
        Some(Vec::from_slice(alloc, method.descriptor())?)
    } else {
        None
    };
    Ok(Some(Place {
        class: Vec::from_slice(alloc, class)?,
        method: Vec::from_slice(alloc, name)?,
        descriptor,
        position,
    }))
}
