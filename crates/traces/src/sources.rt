//! Lines of sources, and places in code.

use crate::names::ProgramNames;
use crate::numbers::{push_number, push_words};
use crate::traced_events::offset_of;
use classfile::source_lines::{line_at, source_file};
use std::alloc::AllocError;
use types::method_code::MethodCode;

/// `Counter.java:12`, where the class file tells its source and its lines. Whether it does.
fn push_line(text: &mut Vec<u8>, method: &MethodCode<'_>, offset: u16) -> Result<bool, AllocError> {
    let Some(source) = source_file(method.file()) else {
        return Ok(false);
    };
    let Some(line) = line_at(method.file(), method.code(), offset) else {
        return Ok(false);
    };
    text.extend_from_slice(source)?;
    text.push(b':')?;
    push_number(text, u64::from(line))?;
    Ok(true)
}

impl ProgramNames<'_> {
    /// The line of the source, `Counter.java:12`, at an offset of a method, by the method's number. Whether the class
    /// file tells it.
    pub(crate) fn push_source_line(
        &self,
        text: &mut Vec<u8>,
        method: u32,
        offset: u16,
    ) -> Result<bool, AllocError> {
        match self.method(method) {
            Some(method) => push_line(text, &method, offset),
            None => Ok(false),
        }
    }

    /// `Counter.java:12`, or else `offset 7`.
    fn push_source(&self, text: &mut Vec<u8>, method: u32, offset: u16) -> Result<(), AllocError> {
        if self.push_source_line(text, method, offset)? {
            return Ok(());
        }
        push_words(text, "offset ")?;
        push_number(text, u64::from(offset))
    }

    /// Writes where a frame stands, by the number of its method and its place in the linked code:
    /// `Counter.run(Counter.java:12)`, or `Counter.run(offset 7)` where the class file doesn't tell its source and
    /// its lines (JVMS 4.7.10, 4.7.12).
    pub fn push_place(
        &self,
        text: &mut Vec<u8>,
        method: u32,
        place: usize,
    ) -> Result<(), AllocError> {
        let offset = offset_of(self.program, method, place);
        self.push_method(text, method)?;
        text.push(b'(')?;
        self.push_source(text, method, offset)?;
        text.push(b')')?;
        Ok(())
    }
}
