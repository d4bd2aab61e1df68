//! The place that a word tells behind its mark.

ghost use Rattle.std.specs.Prelude.{◌≡◌, ◌++◌, ◌+◌, ◌<◌, ◌∷◌, [], decimal, drop, is_some, length, take, unwrap_or};
ghost use Rattle.std.specs.Prelude.{IfOk, IfSome};
ghost use Rattle.place_texts.specs.Places.{place_of};
ghost use Rattle.place_texts.specs.Reading.{has};
ghost use Rattle.place_texts.specs.Texts.{place_words, position_words};

use crate::place::{Place, Position};
use itoa::Buffer;
use std::alloc::{AllocError, Global};
use std::str;

/// Where a byte stands first.
pub(crate) fn first_of(bytes: &[u8], mark: u8) -> Option<usize>
    ensures there { is_some result ≡ has mark bytes.now }
    ensures within { IfSome result (λ at. at < length bytes.now) }
    ensures at { IfSome result (λ at. bytes.now ≡ take at bytes.now ++ mark ∷ drop (at + 1) bytes.now) }
{
    'bytes: for at in 0..bytes.len() {
        if bytes[at] == mark {
            return Some(at);
        }
    }
    None
}

/// Where one of the two marks in front of a number stands last.
fn last_mark(bytes: &[u8]) -> Option<usize>
    ensures { IfSome result (λ at. at < length bytes.now) }
{
    'bytes: for at in (0..bytes.len()).rev() {
        if bytes[at] == b':' || bytes[at] == b'+' {
            return Some(at);
        }
    }
    None
}

/// The number of 16 bits that the bytes spell in decimal, without a zero in front.
fn number(bytes: &[u8]) -> Option<u16>
    ensures { IfSome result (λ n. bytes.now ≡ decimal n) }
{
    let Ok(text) = str::from_utf8(bytes) else {
        return None;
    };
    let Ok(number) = text.parse::<u16>() else {
        return None;
    };
    let mut buffer = Buffer::new();
    if buffer.format(number).as_bytes() == bytes {
        Some(number)
    } else {
        None
    }
}

/// The position that the bytes spell: `:25` or `+25`.
fn position(bytes: &[u8]) -> Option<Position>
    ensures { IfSome result (λ p. bytes.now ≡ position_words p) }
{
    match bytes {
        [b':', digits @ ..] => Some(Position::Line(number(digits)?)),
        [b'+', digits @ ..] => Some(Position::Offset(number(digits)?)),
        _ => None,
    }
}

/// The place in these methods: a name, and what stands from the first `(` on is a descriptor.
fn place_in(
    alloc: Global,
    class: &[u8],
    method: &[u8],
    position: Position,
) -> Result<Place, AllocError>
    ensures class { IfOk result (λ p. p.class.items ≡ class.now) }
    ensures method { IfOk result (λ p. (place_of p).method ++ unwrap_or (place_of p).descriptor [] ≡ method.now) }
    ensures position { IfOk result (λ p. p.position ≡ position) }
{
    let class = Vec::from_slice(alloc, class)?;
    match first_of(method, b'(') {
        Some(at) => Ok(Place {
            class,
            method: Vec::from_slice(alloc, &method[..at])?,
            descriptor: Some(Vec::from_slice(alloc, &method[at..])?),
            position,
        }),
        None => Ok(Place {
            class,
            method: Vec::from_slice(alloc, method)?,
            descriptor: None,
            position,
        }),
    }
}

/// The place that the bytes spell: `CLASS.METHOD:LINE` or `CLASS.METHOD+OFFSET`, where a descriptor may stand behind
/// the method's name. The only error is a want of memory.
pub(crate) fn place(alloc: Global, bytes: &[u8]) -> Result<Option<Place>, AllocError>
    ensures { IfOk result (λ found. IfSome found (λ p. bytes.now ≡ place_words (place_of p))) }
{
    let Some(dot) = first_of(bytes, b'.') else {
        return Ok(None);
    };
    let rest = &bytes[dot + 1..];
    let Some(mark) = last_mark(rest) else {
        return Ok(None);
    };
    let Some(position) = position(&rest[mark..]) else {
        return Ok(None);
    };
    Ok(Some(place_in(alloc, &bytes[..dot], &rest[..mark], position)?))
}
