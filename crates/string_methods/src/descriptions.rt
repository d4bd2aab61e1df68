//! Texts that objects tell of themselves.

ghost use Rattle.std.specs.Prelude.{◌≡◌, ◌++◌, ◌/◌, ◌%◌, ◌<◌, ◌∷◌, IfOk};
ghost use Rattle.model.specs.ObjectMethods as model;

use crate::builders::appended;
use std::alloc::{AllocError, Global};

/// The unit `@`.
const AT: u32 = 64;

/// The unit `0`.
const ZERO: u32 = 48;

/// The hexadecimal digit of an int that is worth so much.
fn digit(bits: u32, worth: u32) -> u32
    requires { 0 < worth }
    ensures { result ≡ model.hexadecimal_digit (bits / worth % 16) }
{
    let digit = bits / worth % 16;
    if digit < 10 { ZERO + digit } else { 87 + digit }
}

/// The eight hexadecimal digits of an int.
fn hexadecimal_digits(bits: u32) -> [u32; 8]
    ensures { result ≡ model.hexadecimal_digits bits }
{
    [
        digit(bits, 0x1000_0000),
        digit(bits, 0x100_0000),
        digit(bits, 0x10_0000),
        digit(bits, 0x1_0000),
        digit(bits, 0x1000),
        digit(bits, 0x100),
        digit(bits, 0x10),
        digit(bits, 1),
    ]
}

/// Digits without the zeros in front of another digit.
fn without_zeros(digits: &[u32]) -> &[u32]
    ensures { result.now ≡ model.without_zeros digits.now }
{
    let mut rest = digits;
    while rest.len() > 1 && rest[0] == ZERO {
        rest = &rest[1..];
    }
    rest
}

/// A text with units behind it. The only error is a want of memory.
pub fn appended_units(alloc: Global, text: &[u32], units: &[u16]) -> Result<Vec<u32>, AllocError>
    ensures { IfOk result (λ all. all.items ≡ text.now ++ units.now) }
{
    let mut all = Vec::with_capacity(alloc, text.len() + units.len())?;
    all.extend_from_slice(text)?;
    for unit in units {
        all.push(u32::from(*unit))?;
    }
    Ok(all)
}

/// A name with `@` and an int in hexadecimal, without its sign, behind it. The only error is a want of memory.
pub fn described(alloc: Global, name: &[u32], bits: u32) -> Result<Vec<u32>, AllocError>
    ensures { IfOk result (λ units. units.items ≡ name.now ++ 64 ∷ model.hexadecimal bits) }
{
    let opened = appended(alloc, name, &[AT])?;
    appended(alloc, &opened, without_zeros(&hexadecimal_digits(bits)))
}
