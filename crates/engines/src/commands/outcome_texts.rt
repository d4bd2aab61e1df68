//! Texts of files with which a search compares what was printed.

ghost use Rattle.std.specs.Prelude.{◌≡◌, IfOk};
ghost use Rattle.engines.specs.Goals.{begins_return, is_unended, text_of_file, without_returns};

use std::alloc::{AllocError, Global};

/// What ends a line.
const LINE_END: &[u8] = b"\n";

/// What ends a line, and what may stand before it.
const RETURN_AND_END: &[u8] = b"\r\n";

/// The text of a file: a carriage return before a line feed doesn't count, and the last line has a line feed at its
/// end.
pub(crate) fn text_of_file(alloc: Global, bytes: &[u8]) -> Result<Vec<u8>, AllocError>
    ensures { IfOk result (λ text. text.items ≡ text_of_file bytes.now) }
{
    let mut text = without_returns(alloc, bytes)?;
    if is_unended(text.as_slice()) {
        text.push(b'\n')?;
    }
    Ok(text)
}

/// Whether the last of the bytes is no line feed, if there is one.
fn is_unended(bytes: &[u8]) -> bool
    ensures { result ≡ is_unended bytes.now }
{
    !bytes.is_empty() && !bytes.ends_with(LINE_END)
}

/// The bytes without each carriage return before a line feed.
fn without_returns(alloc: Global, bytes: &[u8]) -> Result<Vec<u8>, AllocError>
    ensures { IfOk result (λ kept. kept.items ≡ without_returns bytes.now) }
{
    let mut kept = Vec::new(alloc);
    'bytes: for place in 0..bytes.len() {
        if !begins_return(&bytes[place..]) {
            kept.push(bytes[place])?;
        }
    }
    Ok(kept)
}

/// Whether a carriage return stands first, and a line feed behind it.
fn begins_return(bytes: &[u8]) -> bool
    ensures { result ≡ begins_return bytes.now }
{
    bytes.starts_with(RETURN_AND_END)
}
