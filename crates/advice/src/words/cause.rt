//! What is wrong with a file that is no class file, by its cause.

use crate::words::line::Line;
use classfile::Cause;
use std::alloc::AllocError;

/// The two bytes from an offset on as a number.
fn u2_at(bytes: &[u8], at: usize) -> Option<usize> {
    let high = bytes.get(at).copied()?;
    let low = bytes.get(at.saturating_add(1)).copied()?;
    Some(usize::from(u16::from_be_bytes([high, low])))
}

/// What is wrong, by its cause.
pub fn words_of(cause: Cause) -> &'static str {
    match cause {
        Cause::Truncated => "the file ends within a field",
        Cause::Magic => "the first four bytes are not those of a class file",
        Cause::Version => "the version is another than 49.0",
        Cause::Tag => "no entry of a constant pool has this tag",
        Cause::Index => "an index names no entry of the kind that it has to name",
        Cause::Utf8 => "a byte can't stand in a Utf8",
        Cause::Name => "a name is none",
        Cause::Descriptor => "a descriptor is none",
        Cause::Attribute => "an attribute doesn't fit, is missing, or stands where it can't",
        Cause::Trailing => "bytes follow the last attribute",
        Cause::Duplicate => "two fields, or two methods, have one name and one descriptor",
        Cause::OutOfMemory => "there is no memory for it",
        Cause::Code => "the code of a method is malformed",
    }
}

/// Adds the version of a file.
pub fn say_version(line: &mut Line, bytes: &[u8]) -> Result<(), AllocError> {
    let (Some(minor), Some(major)) = (u2_at(bytes, 4), u2_at(bytes, 6)) else {
        return line.say(" has another version than 49.0");
    };
    line.say(" has version ")?;
    line.number(major)?;
    line.say(".")?;
    line.number(minor)?;
    line.say("; only 49.0 is taken")
}
