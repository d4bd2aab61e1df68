//! The lines of a code that is asked for many of them.

use crate::source_lines::bytes::u2_at;
use crate::source_lines::lines::{LineStart, entry_at};
use crate::source_lines::source::is_named;
use crate::{ClassFile, Code};
use std::alloc::{AllocError, Global};

/// The lines of the code of a method, by the offsets at which they begin (JVMS 4.7.12).
#[derive(Drop)]
pub struct LineTable {
    /// In the order of their offsets; of two at one offset the later one of the class file stands behind.
    starts: Vec<LineStart>,
}

/// Adds the entries of an attribute.
fn push_entries(starts: &mut Vec<LineStart>, table: &[u8]) -> Result<(), AllocError> {
    let Some(count) = u2_at(table, 0) else {
        return Ok(());
    };
    for place in 0..count {
        let Some(entry) = entry_at(table, place) else {
            return Ok(());
        };
        starts.push(entry)?;
    }
    Ok(())
}

impl LineTable {
    /// No lines.
    pub fn empty(alloc: Global) -> LineTable {
        LineTable {
            starts: Vec::new(alloc),
        }
    }

    /// The lines of a code, as far as the class file tells them.
    pub fn of_code(alloc: Global, file: &ClassFile, code: &Code) -> Result<LineTable, AllocError> {
        let mut starts = Vec::new(alloc);
        for attribute in &code.attributes {
            if is_named(file, attribute, b"LineNumberTable") {
                push_entries(&mut starts, &attribute.bytes)?;
            }
        }
        starts.sort_by_key(|start| start.offset)?;
        Ok(LineTable { starts })
    }

    /// The number of the line to which the instruction at an offset belongs, as `line_at` answers it.
    pub fn line_at(&self, offset: u16) -> Option<u16> {
        let behind = self.starts.partition_point(|start| start.offset <= offset);
        let last = self.starts.get(behind.checked_sub(1)?)?;
        Some(last.line)
    }
}
