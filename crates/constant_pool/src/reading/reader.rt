//! Bytes that are read from left to right.

ghost use Rattle.std.specs.Prelude.{◌≡◌, ◌+◌, ◌<◌, ◌^◌, ◌≤◌, ◌==◌, List, length};
ghost use Rattle.constant_pool.specs.reading.Input.{Input};
ghost use Rattle.constant_pool.specs.reading.Reading.{Gives, number_at, bytes_at, inner_at};

use crate::reading::fault::{Cause, Malformed, Stop};
use byteorder::{BigEndian, ByteOrder};
use std::marker::Model;

/// What is left to read, and the offset of its first byte.
#[derive(Drop)]
pub struct Reader<'a> {
    rest: &'a [u8],
    at: usize,
}

impl<'a> Model for Reader<'a> {
    ghost Value = { Input };

    ghost view = { λ r. record { at = r.at; rest = r.rest.now } };

    ghost invariant = { λ r. r.at + length r.rest.now < 2 ^ 64 };
}

impl<'a> Reader<'a> {
    /// All of the bytes; the first has the offset 0.
    pub fn new(bytes: &'a [u8]) -> Reader<'a>
        ensures { result ≡ record { at = 0; rest = bytes.now } }
    {
        Reader { rest: bytes, at: 0 }
    }

    /// The offset of the first byte that is left.
    pub fn at(&self) -> usize
        ensures { result ≡ self.now.at }
    {
        self.at
    }

    /// The fault of a field that begins here.
    pub fn fault(&self, cause: Cause) -> Stop
        ensures { result ≡ Stop.Fault (record { cause = cause; offset = self.now.at }) }
    {
        Stop::Fault(Malformed {
            cause,
            offset: self.at,
        })
    }

    /// Whether nothing is left.
    pub fn is_at_end(&self) -> bool
        ensures { result ≡ (length self.now.rest == 0) }
    {
        self.rest.is_empty()
    }

    /// The next `len` bytes, `Truncated` where there are fewer.
    pub fn bytes(&mut self, len: usize) -> Result<&'a [u8], Stop>
        ensures { Gives (λ text. (text.now, self.new)) result (bytes_at len self.old) }
    {
        if self.rest.len() < len {
            return Err(self.fault(Cause::Truncated));
        }
        let (front, rest) = self.rest.split_at(len);
        self.rest = rest;
        self.at += len;
        Ok(front)
    }

    /// A number of one byte.
    pub fn u1(&mut self) -> Result<u8, Stop>
        ensures { Gives (λ n. (n, self.new)) result (number_at 1 self.old) }
    {
        Ok(self.bytes(1)?[0])
    }

    /// A number of two bytes, the highest first.
    pub fn u2(&mut self) -> Result<u16, Stop>
        ensures { Gives (λ n. (n, self.new)) result (number_at 2 self.old) }
    {
        Ok(BigEndian::read_u16(self.bytes(2)?))
    }

    /// A number of four bytes, the highest first.
    pub fn u4(&mut self) -> Result<u32, Stop>
        ensures { Gives (λ n. (n, self.new)) result (number_at 4 self.old) }
    {
        Ok(BigEndian::read_u32(self.bytes(4)?))
    }

    /// A number of eight bytes, the highest first.
    pub fn u8(&mut self) -> Result<u64, Stop>
        ensures { Gives (λ n. (n, self.new)) result (number_at 8 self.old) }
    {
        Ok(BigEndian::read_u64(self.bytes(8)?))
    }

    /// The next `len` bytes as a reader of their own, with the offsets that they have here.
    pub fn inner(&mut self, len: usize) -> Result<Reader<'a>, Stop>
        ensures { Gives (λ inner. (inner, self.new)) result (inner_at len self.old) }
    {
        let at = self.at;
        let rest = self.bytes(len)?;
        Ok(Reader { rest, at })
    }
}
