//! The numbers at an offset of the code, which stand with the high byte first.

ghost use Rattle.std.specs.Prelude.{◌≡◌, ◌≤◌, ◌+◌, ◌↔◌, IsTrue, length};
ghost use Rattle.std.specs.Int.{w8, w16, w32};
ghost use Rattle.model.specs.Instruction.{word_at, signed_at};

use byteorder::{BigEndian, ByteOrder};

/// Whether there are `len` bytes from an offset on.
pub(crate) fn has(code: &[u8], at: usize, len: usize) -> bool
    ensures { IsTrue result ↔ (at + len ≤ length code.now) }
{
    at <= code.len() && len <= code.len() - at
}

pub(crate) fn u1_at(code: &[u8], at: usize) -> Option<u8>
    ensures { result ≡ word_at 1 code.now at }
{
    if has(code, at, 1) {
        Some(code[at])
    } else {
        None
    }
}

pub(crate) fn i1_at(code: &[u8], at: usize) -> Option<i8>
    ensures { result ≡ signed_at w8 code.now at }
{
    if has(code, at, 1) {
        Some(code[at].cast_signed())
    } else {
        None
    }
}

pub(crate) fn u2_at(code: &[u8], at: usize) -> Option<u16>
    ensures { result ≡ word_at 2 code.now at }
{
    if has(code, at, 2) {
        Some(BigEndian::read_u16(&code[at..]))
    } else {
        None
    }
}

pub(crate) fn i2_at(code: &[u8], at: usize) -> Option<i16>
    ensures { result ≡ signed_at w16 code.now at }
{
    if has(code, at, 2) {
        Some(BigEndian::read_i16(&code[at..]))
    } else {
        None
    }
}

pub(crate) fn u4_at(code: &[u8], at: usize) -> Option<u32>
    ensures { result ≡ word_at 4 code.now at }
{
    if has(code, at, 4) {
        Some(BigEndian::read_u32(&code[at..]))
    } else {
        None
    }
}

pub(crate) fn i4_at(code: &[u8], at: usize) -> Option<i32>
    ensures { result ≡ signed_at w32 code.now at }
{
    if has(code, at, 4) {
        Some(BigEndian::read_i32(&code[at..]))
    } else {
        None
    }
}
