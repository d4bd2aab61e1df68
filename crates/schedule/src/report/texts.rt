//! Printed texts in UTF-8.

ghost use Rattle.std.specs.Prelude.{◌≡◌, ◌↔◌, ◌∷◌, ◌++◌, OnOk, IfOk, IsTrue, Some};
ghost use Rattle.std.specs.Char.Utf16.{lone_unit_char, surrogate_pair_char};
ghost use Rattle.model.specs.Texts.{Text, character_bytes, encoded, ends_line, printed_lines};
ghost use Rattle.schedule.specs.report.Units.{IsHigh, IsLow, MayWait, units_of};

use std::alloc::AllocError;

fn is_high(unit: u16) -> bool
    ensures { IsTrue result ↔ IsHigh unit }
{
    0xD800 <= unit && unit < 0xDC00
}

fn is_low(unit: u16) -> bool
    ensures { IsTrue result ↔ IsLow unit }
{
    0xDC00 <= unit && unit < 0xE000
}

/// The character of a unit that is in no pair.
#[tactic(auto, using(crate::proofs::report::Units::lone_is))]
fn lone(unit: u16) -> Option<char>
    ensures { result ≡ lone_unit_char unit }
{
    char::from_u32(u32::from(unit))
}

/// The character of a pair.
#[tactic(auto, using(crate::proofs::report::Units::pair_is))]
fn pair(high: u16, low: u16) -> Option<char>
    requires { IsHigh high × IsLow low }
    ensures { result ≡ Some (surrogate_pair_char high low) }
{
    let upper = (u32::from(high) - 0xD800) * 0x400;
    let lower = u32::from(low) - 0xDC00;
    char::from_u32(0x1_0000 + upper + lower)
}

/// Writes a character in UTF-8 behind a text. What is none is a question mark.
fn push_character(text: &mut Vec<u8>, character: Option<char>) -> Result<(), AllocError>
    ensures { OnOk result (text.new.items ≡ text.old.items ++ character_bytes character) }
{
    let mut bytes = [0; 4];
    let character = character.unwrap_or('?');
    text.extend_from_slice(character.encode_utf8(&mut bytes).as_bytes())
}

/// Writes the character of a unit behind a text, or returns the unit where it is the first one of a pair.
#[tactic(auto, using(crate::proofs::report::Units::alone_written))]
fn push_alone(text: &mut Vec<u8>, unit: u16) -> Result<Option<u16>, AllocError>
    ensures waits { IfOk result MayWait }
    ensures written { IfOk result (λ next. (rest : Text)
        → text.new.items ++ encoded (units_of next ++ rest) ≡ text.old.items ++ encoded (unit ∷ rest)) }
{
    if is_high(unit) {
        return Ok(Some(unit));
    }
    push_character(text, lone(unit))?;
    Ok(None)
}

/// Does the same behind the first unit of a pair, which waits.
#[tactic(auto, using(crate::proofs::report::Units::pair_written, crate::proofs::report::Units::behind_written))]
fn push_behind(text: &mut Vec<u8>, high: u16, unit: u16) -> Result<Option<u16>, AllocError>
    requires { IsHigh high }
    ensures waits { IfOk result MayWait }
    ensures written { IfOk result (λ next. (rest : Text)
        → text.new.items ++ encoded (units_of next ++ rest) ≡ text.old.items ++ encoded (high ∷ unit ∷ rest)) }
{
    if is_low(unit) {
        push_character(text, pair(high, unit))?;
        return Ok(None);
    }
    push_character(text, lone(high))?;
    push_alone(text, unit)
}

/// Writes a unit behind a text and whatever waits, and returns what waits then.
fn push_unit(text: &mut Vec<u8>, first: Option<u16>, unit: u16) -> Result<Option<u16>, AllocError>
    requires { MayWait first }
    ensures waits { IfOk result MayWait }
    ensures written { IfOk result (λ next. (rest : Text)
        → text.new.items ++ encoded (units_of next ++ rest)
        ≡ text.old.items ++ encoded (units_of first ++ unit ∷ rest)) }
{
    match first {
        None => push_alone(text, unit),
        Some(high) => push_behind(text, high, unit),
    }
}

/// Writes UTF-16 units in UTF-8 behind a text. A surrogate without its other half is a question mark.
#[tactic(auto, using(crate::proofs::report::Units::one_written, crate::proofs::report::Units::all_written, crate::proofs::report::Units::last_written))]
pub fn push_text(text: &mut Vec<u8>, units: &[u16]) -> Result<(), AllocError>
    ensures { OnOk result (text.new.items ≡ text.old.items ++ encoded units.now) }
{
    let mut first = None;
    for unit in units {
        first = push_unit(text, first, *unit)?;
    }
    if let Some(high) = first {
        push_character(text, lone(high))?;
    }
    Ok(())
}

#[tactic(auto, using(crate::proofs::report::Units::ends_at))]
fn ends_line(text: &[u16]) -> bool
    ensures { result ≡ ends_line text.now }
{
    let count = text.len();
    count == 0 || text[count - 1] == 10
}

/// Writes what was printed in UTF-8 behind a text, and a line feed where its last line has none.
pub fn push_printed(text: &mut Vec<u8>, printed: &[u16]) -> Result<(), AllocError>
    ensures { OnOk result (text.new.items ≡ text.old.items ++ printed_lines printed.now) }
{
    push_text(text, printed)?;
    if !ends_line(printed) {
        text.push(b'\n')?;
    }
    Ok(())
}
