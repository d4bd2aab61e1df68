//! Words and numbers as a trace writes them.

ghost use Rattle.std.specs.Prelude.{◌≡◌, ◌++◌, replicate, OnOk};
ghost use Rattle.model.specs.Report.{number as digits};
ghost use Rattle.traces.specs.Lines.{in_seven};

use itoa::Buffer;
use std::alloc::AllocError;

/// Writes words behind a text.
pub fn push_words(text: &mut Vec<u8>, words: &str) -> Result<(), AllocError>
    ensures { OnOk result (text.new.items ≡ text.old.items ++ words.now) }
{
    Ok(text.extend_from_slice(words.as_bytes())?)
}

/// Writes a number in decimal behind a text.
pub fn push_number(text: &mut Vec<u8>, number: u64) -> Result<(), AllocError>
    ensures { OnOk result (text.new.items ≡ text.old.items ++ digits number) }
{
    let mut buffer = Buffer::new();
    text.extend_from_slice(buffer.format(number).as_bytes())?;
    Ok(())
}

/// So many spaces.
pub(crate) fn push_spaces(text: &mut Vec<u8>, count: usize) -> Result<(), AllocError>
    ensures { OnOk result (text.new.items ≡ text.old.items ++ replicate count 32) }
{
    'spaces: for _ in 0..count {
        text.push(b' ')?;
    }
    Ok(())
}

/// A number in seven places or more.
pub(crate) fn push_in_seven(text: &mut Vec<u8>, number: u64) -> Result<(), AllocError>
    ensures { OnOk result (text.new.items ≡ text.old.items ++ in_seven number) }
{
    let mut buffer = Buffer::new();
    let digits = buffer.format(number).as_bytes();
    push_spaces(text, 7usize.saturating_sub(digits.len()))?;
    text.extend_from_slice(digits)?;
    Ok(())
}

/// A number in decimal, with `-` where it is negative.
pub(crate) fn push_signed(text: &mut Vec<u8>, number: i32) -> Result<(), AllocError> {
    let mut buffer = Buffer::new();
    Ok(text.extend_from_slice(buffer.format(number).as_bytes())?)
}

/// How the word behind an ordinal number ends.
fn ordinal_end(number: u32) -> &'static str {
    match (number % 100 / 10, number % 10) {
        (1, _) => "th",
        (_, 1) => "st",
        (_, 2) => "nd",
        (_, 3) => "rd",
        _ => "th",
    }
}

/// An ordinal number: `1st`, `2nd`.
pub(crate) fn push_ordinal(text: &mut Vec<u8>, number: u32) -> Result<(), AllocError> {
    push_number(text, u64::from(number))?;
    push_words(text, ordinal_end(number))
}
