//! Methods that answer ints.

ghost use Rattle.std.specs.Prelude.{◌≡◌, ◌==◌, ◌%◌, ◌^◌, ◌<◌, length, IfSome};
ghost use Rattle.std.specs.List.{position_from};
ghost use Rattle.std.specs.Option.{option_map};
ghost use Rattle.model.specs.StringMethods as model;
ghost use Rattle.string_methods.specs.Answers.{shown};

use crate::StringAnswer;

const TWO_TO_31: u32 = 0x8000_0000;

const TWO_TO_32: usize = 0x1_0000_0000;

/// The low 32 bits of a number.
#[inline]
fn low_bits(number: usize) -> u32
    ensures { result ≡ number % 2 ^ 32 }
{
    (number % TWO_TO_32) as u32
}

/// The bits of the int that is the difference of two numbers.
#[inline]
fn difference(a: usize, b: usize) -> u32
    requires { a < 2 ^ 32 }
    ensures { result ≡ model.difference a b }
{
    low_bits(a + TWO_TO_32.saturating_sub(b))
}

/// How many units a text has: `length`.
#[inline]
pub fn length(text: &[u32]) -> u32
    ensures { result ≡ length text.now % 2 ^ 32 }
{
    low_bits(text.len())
}

/// The unit at an index: `charAt`. Outside of the text it is a StringIndexOutOfBoundsException.
#[inline]
pub fn unit_at(text: &[u32], index: u32) -> StringAnswer
    ensures { shown result ≡ model.unit_at text.now index }
{
    if index >= TWO_TO_31 {
        return StringAnswer::Outside;
    }
    match text.get(index as usize) {
        Some(unit) => StringAnswer::Int(*unit),
        None => StringAnswer::Outside,
    }
}

/// Whether these are the same units: `equals`. None are those of what is no String.
#[inline]
pub fn is_same_text(text: &[u32], other: Option<&[u32]>) -> bool
    ensures { result ≡ model.is_same_text text.now (option_map (λ o. o.now) other.entry) }
{
    match other {
        Some(other) => text == other,
        None => false,
    }
}

/// The hash code of a text: `hashCode`.
pub fn hash_code(text: &[u32]) -> u32
    ensures { result ≡ model.hash_after 0 text.now }
{
    let mut hash: u32 = 0;
    for unit in text {
        hash = hash.wrapping_mul(31).wrapping_add(*unit);
    }
    hash
}

/// The difference of the first units that differ, or else of the lengths: `compareTo`.
pub fn compared(text: &[u32], other: &[u32]) -> u32
    ensures { result ≡ model.compared text.now other.now }
{
    for at in 0..text.len().min(other.len()) {
        if text[at] != other[at] {
            return difference(text[at] as usize, other[at] as usize);
        }
    }
    if other.len() < text.len() {
        low_bits(text.len() - other.len())
    } else {
        difference(0, other.len() - text.len())
    }
}

/// The first place of a unit.
fn first_place(text: &[u32], unit: u32) -> Option<usize>
    ensures place { result ≡ position_from (λ u. u == unit) 0 text.now }
    ensures within { IfSome result (λ place. place < length text.now) }
{
    text.iter().position(|u| *u == unit)
}

/// The first place of a unit from an index on.
fn place_from(text: &[u32], least: usize, unit: u32) -> Option<usize>
    ensures { result ≡ model.place_from 0 least unit text.now }
{
    let rest = text.get(least..)?;
    let place = first_place(rest, unit)?;
    Some(least + place)
}

/// An index by the bits of an int; 0 for one that is negative.
#[inline]
fn not_negative(bits: u32) -> usize
    ensures { result ≡ model.not_negative bits }
{
    if bits < TWO_TO_31 { bits as usize } else { 0 }
}

/// The first place of a unit from an index on, by the bits of both; -1 where there is none: `indexOf`.
pub fn index_of(text: &[u32], unit: u32, from: u32) -> u32
    ensures { result ≡ model.index_of text.now unit from }
{
    match place_from(text, not_negative(from), unit) {
        Some(place) => low_bits(place),
        None => u32::MAX,
    }
}
