//! Texts of UTF-16 units, as a word spells them.

ghost use Rattle.std.specs.Prelude.{◌≡◌, ◌++◌, IfErr, IfOk, None, OnOk, Some};
ghost use Rattle.std.specs.Char.Escape.{encode_utf16};
ghost use Rattle.std.specs.Str.{chars};
ghost use Rattle.command_line.specs.CommandLine.{Refuses};
ghost use Rattle.command_line.specs.EscapedTexts.{digit, escape_of, four_digits, units_behind, units_of};

use crate::usage::Usage;
use std::alloc::{AllocError, Global};

/// The unit that ends a line.
const LINE_FEED: u16 = 10;

/// The unit of a backslash.
const BACKSLASH: u16 = 0x5c;

/// How many characters stand behind a backslash where its escape has a number.
const NUMBERED: usize = 5;

/// The units that a word spells: those of each character, but for escapes. `\n` is a line feed, `\\` a backslash, and
/// `\u` with four hexadecimal digits behind it is one unit. Any other backslash is a fault.
pub(crate) fn units_of(alloc: Global, word: &str) -> Result<Vec<u16>, Usage>
    ensures units { IfOk result (λ units. units_of word.now ≡ Some units.items) }
    ensures none { IfErr result (λ usage. Refuses usage (units_of word.now ≡ None)) }
{
    let characters: Vec<char> = word.chars().collect(alloc)?;
    units_of_characters(alloc, word, characters.as_slice())
}

/// The units that the characters of a word spell.
fn units_of_characters(alloc: Global, word: &str, characters: &[char]) -> Result<Vec<u16>, Usage>
    ensures units { IfOk result (λ units. units_behind 0 characters.now ≡ Some units.items) }
    ensures none { IfErr result (λ usage. Refuses usage (units_behind 0 characters.now ≡ None)) }
{
    let mut units = Vec::new(alloc);
    let mut passed_over = 0;
    'characters: for at in 0..characters.len() {
        let character = characters[at];
        if passed_over > 0 {
            passed_over -= 1;
        } else if character != '\\' {
            push_character(&mut units, character)?;
        } else {
            let Some((unit, count)) = escape_of(&characters[at + 1..]) else {
                return Err(Usage::no_escape(alloc, word, at + 1));
            };
            units.push(unit)?;
            passed_over = count;
        }
    }
    Ok(units)
}

/// Appends the units of a character.
fn push_character(units: &mut Vec<u16>, character: char) -> Result<(), AllocError>
    ensures { OnOk result (units.new.items ≡ units.old.items ++ encode_utf16 character) }
{
    let mut room = [0; 2];
    units.extend_from_slice(character.encode_utf16(&mut room))
}

/// The unit of the escape whose characters stand behind a backslash, and how many of them there are.
fn escape_of(behind: &[char]) -> Option<(u16, usize)>
    ensures { result ≡ escape_of behind.now }
{
    match behind {
        ['n', ..] => Some((LINE_FEED, 1)),
        ['\\', ..] => Some((BACKSLASH, 1)),
        ['u', digits @ ..] => Some((four_digits(digits)?, NUMBERED)),
        _ => None,
    }
}

/// The number of four hexadecimal digits that come first.
fn four_digits(digits: &[char]) -> Option<u16>
    ensures { result ≡ four_digits digits.now }
{
    match digits {
        [a, b, c, d, ..] => {
            let upper = digit(*a)? * 16 + digit(*b)?;
            let lower = digit(*c)? * 16 + digit(*d)?;
            Some(upper * 256 + lower)
        }
        _ => None,
    }
}

/// The value of a hexadecimal digit.
fn digit(character: char) -> Option<u16>
    ensures { result ≡ digit character }
{
    Some(character.to_digit(16)? as u16)
}
