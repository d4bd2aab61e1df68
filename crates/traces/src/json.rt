//! Texts of class files as strings of JSON (RFC 8259, section 7).

ghost use Rattle.std.specs.Prelude.{◌≡◌, ◌<◌, [], ◌++◌, OnOk};
ghost use Rattle.model.specs.Listing.{hex_digit, hex_short};
ghost use Rattle.model.specs.Report.{number as digits};
ghost use Rattle.traces.specs.JsonTexts.{escape, escaped, member, quoted, text_member};

use crate::numbers::{push_number, push_words};
use constant_pool::modified_utf8::code_unit_at;
use std::alloc::AllocError;

fn hex_digit(n: u8) -> u8
    requires { n < 16 }
    ensures { result ≡ hex_digit n }
{
    if n < 10 { b'0' + n } else { b'a' - 10 + n }
}

/// 16 bits in four hexadecimal digits.
fn hex_digits(n: u16) -> [u8; 4]
    ensures { result ≡ hex_short n }
{
    let high = (n / 256) as u8;
    let low = (n % 256) as u8;
    [
        hex_digit(high / 16),
        hex_digit(high % 16),
        hex_digit(low / 16),
        hex_digit(low % 16),
    ]
}

/// A code unit as it stands in a string.
pub(crate) fn push_unit(text: &mut Vec<u8>, unit: u16) -> Result<(), AllocError>
    ensures { OnOk result (text.new.items ≡ text.old.items ++ escape unit) }
{
    if unit == 0x22 || unit == 0x5c {
        text.push(b'\\')?;
        text.push(unit as u8)?;
        return Ok(());
    }
    if 0x20 <= unit && unit < 0x7f {
        text.push(unit as u8)?;
        return Ok(());
    }
    push_words(text, "\\u")?;
    Ok(text.extend_from_slice(&hex_digits(unit))?)
}

pub(crate) fn push_escaped(text: &mut Vec<u8>, bytes: &[u8]) -> Result<(), AllocError>
    ensures { OnOk result (text.new.items ≡ text.old.items ++ escaped bytes.now) }
{
    let mut at = 0;
    'units: while at < bytes.len() {
        let unit = code_unit_at(bytes, at);
        push_unit(text, unit.value)?;
        at += unit.size;
    }
    Ok(())
}

/// A text in quotation marks.
fn push_quoted(text: &mut Vec<u8>, bytes: &[u8]) -> Result<(), AllocError>
    ensures { OnOk result (text.new.items ≡ text.old.items ++ quoted bytes.now) }
{
    push_words(text, "\"")?;
    push_escaped(text, bytes)?;
    push_words(text, "\"")
}

/// The key of a member of an object behind others.
fn push_key(text: &mut Vec<u8>, key: &str) -> Result<(), AllocError>
    ensures { OnOk result (text.new.items ≡ text.old.items ++ member key.now []) }
{
    push_words(text, ",\"")?;
    push_words(text, key)?;
    push_words(text, "\":")
}

/// A member whose value is a number.
pub(crate) fn push_number_member(
    text: &mut Vec<u8>,
    key: &str,
    number: u64,
) -> Result<(), AllocError>
    ensures { OnOk result (text.new.items ≡ text.old.items ++ member key.now (digits number)) }
{
    push_key(text, key)?;
    push_number(text, number)
}

/// A member whose value is a text.
pub(crate) fn push_text_member(
    text: &mut Vec<u8>,
    key: &str,
    bytes: &[u8],
) -> Result<(), AllocError>
    ensures { OnOk result (text.new.items ≡ text.old.items ++ text_member key.now bytes.now) }
{
    push_key(text, key)?;
    push_quoted(text, bytes)
}
