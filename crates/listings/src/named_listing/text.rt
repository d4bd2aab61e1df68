//! Parts of the lines of a listing with names.

use itoa::Buffer;
use std::alloc::AllocError;

/// What stands behind a line of the listing, if anything does: parts behind ` // `, with commas between them.
#[derive(Drop)]
pub(crate) struct Comment<'a> {
    text: &'a mut Vec<u8>,
    is_begun: bool,
}

impl<'a> Comment<'a> {
    pub(crate) fn new(text: &'a mut Vec<u8>) -> Comment<'a> {
        Comment {
            text,
            is_begun: false,
        }
    }

    /// Begins one more part.
    pub(crate) fn part(&mut self) -> Result<&mut Vec<u8>, AllocError> {
        let gap: &[u8] = if self.is_begun { b", " } else { b" // " };
        self.is_begun = true;
        self.text.extend_from_slice(gap)?;
        Ok(self.text)
    }
}

pub(crate) fn push_number(text: &mut Vec<u8>, number: i64) -> Result<(), AllocError> {
    let mut buffer = Buffer::new();
    text.extend_from_slice(buffer.format(number).as_bytes())?;
    Ok(())
}

/// The text of a String constant in quotes. Quotes, backslashes, line feeds and carriage returns have a backslash.
pub(crate) fn push_quoted(text: &mut Vec<u8>, string: &[u8]) -> Result<(), AllocError> {
    text.push(b'"')?;
    for byte in string {
        match *byte {
            b'"' => text.extend_from_slice(b"\\\"")?,
            b'\\' => text.extend_from_slice(b"\\\\")?,
            b'\n' => text.extend_from_slice(b"\\n")?,
            b'\r' => text.extend_from_slice(b"\\r")?,
            other => text.push(other)?,
        }
    }
    text.push(b'"')?;
    Ok(())
}
