//! The text of a Utf8 entry, which is spelled in modified UTF-8 (JVMS 4.4.7).

ghost use Rattle.std.specs.Prelude.{◌≡◌, ◌+◌, ◌<◌, ◌≤◌, ◌∷◌, ◌++◌, length, drop, slice_index_or, IfOk};
ghost use Rattle.model.specs.Texts.{are_two, are_three, decoded, is_continuation, unit_of_two, unit_of_three};

use std::alloc::{AllocError, Global};

/// A UTF-16 code unit, and how many bytes spell it.
#[derive(Clone, Copy)]
pub struct CodeUnit {
    pub value: u16,
    pub size: usize,
}

/// The byte at a place, 0 behind the end.
fn byte_at(bytes: &[u8], at: usize) -> u8
    ensures { result ≡ slice_index_or bytes.now at 0 }
{
    bytes.get(at).copied().unwrap_or(0)
}

/// Whether a byte stands behind the first one of a unit.
fn is_continuation(byte: u8) -> bool
    ensures { result ≡ is_continuation byte }
{
    0x80 <= byte && byte <= 0xbf
}

/// Whether two bytes are one unit.
fn are_two(first: u8, second: u8) -> bool
    ensures { result ≡ are_two first second }
{
    0xc0 <= first && first <= 0xdf && is_continuation(second)
}

/// Whether three bytes are one unit.
fn are_three(first: u8, second: u8, third: u8) -> bool
    ensures { result ≡ are_three first second third }
{
    0xe0 <= first && first <= 0xef && is_continuation(second) && is_continuation(third)
}

fn unit_of_two(first: u8, second: u8) -> u16
    ensures { result ≡ unit_of_two first second }
{
    u16::from(first % 32) * 64 + u16::from(second % 64)
}

fn unit_of_three(first: u8, second: u8, third: u8) -> u16
    ensures { result ≡ unit_of_three first second third }
{
    u16::from(first % 16) * 4096 + u16::from(second % 64) * 64 + u16::from(third % 64)
}

/// The code unit that the bytes from a place on begin with. A byte that begins no unit is one by itself (own).
pub fn code_unit_at(bytes: &[u8], at: usize) -> CodeUnit
    requires { at < length bytes.now }
    ensures some { 0 < result.size }
    ensures within { at + result.size ≤ length bytes.now }
    ensures spelled { decoded (drop at bytes.now) ≡ result.value ∷ decoded (drop (at + result.size) bytes.now) }
{
    let first = byte_at(bytes, at);
    let second = byte_at(bytes, at + 1);
    if are_two(first, second) {
        return CodeUnit {
            value: unit_of_two(first, second),
            size: 2,
        };
    }
    let third = byte_at(bytes, at + 2);
    if are_three(first, second, third) {
        return CodeUnit {
            value: unit_of_three(first, second, third),
            size: 3,
        };
    }
    CodeUnit {
        value: u16::from(first),
        size: 1,
    }
}

/// The text that bytes spell, in UTF-16 code units.
///
/// # Errors
///
/// Where there is no memory.
pub fn decode(alloc: Global, bytes: &[u8]) -> Result<Vec<u16>, AllocError>
    ensures { IfOk result (λ text. text.items ≡ decoded bytes.now) }
{
    let mut text = Vec::new(alloc);
    let mut at = 0;
    'units: while at < bytes.len() {
        let unit = code_unit_at(bytes, at);
        text.push(unit.value)?;
        at += unit.size;
    }
    Ok(text)
}
