//! Methods that make texts.

ghost use Rattle.std.specs.Prelude.{◌%◌, ◌^◌, [], ◌∷◌};
ghost use Rattle.std.specs.Fmt.{signed_decimal};
ghost use Rattle.model.specs.StringMethods as model;
ghost use Rattle.string_methods.specs.Answers.{IsAnswer};

use crate::StringAnswer;
use itoa::Buffer;
use std::alloc::{AllocError, Global};

const TWO_TO_31: u32 = 0x8000_0000;

/// A text with another behind it: `concat`. Where nothing is added it is the receiver, the operand at that place. The
/// only error is a want of memory for a new text.
pub fn joined(
    alloc: Global,
    receiver: usize,
    text: &[u32],
    other: &[u32],
) -> Result<StringAnswer, AllocError>
    ensures { IsAnswer result (model.joined receiver text.now other.now) }
{
    if other.is_empty() {
        return Ok(StringAnswer::Same(receiver));
    }
    let mut units = Vec::with_capacity(alloc, text.len() + other.len())?;
    units.extend_from_slice(text)?;
    units.extend_from_slice(other)?;
    Ok(StringAnswer::Composed(units))
}

/// The units from an index up to another, by the bits of both: `substring`. The whole text is the receiver, the operand
/// at that place; what doesn't lie in the text is a StringIndexOutOfBoundsException. The only error is a want of memory
/// for a new text.
pub fn part_of(
    alloc: Global,
    receiver: usize,
    text: &[u32],
    begin: u32,
    end: u32,
) -> Result<StringAnswer, AllocError>
    ensures { IsAnswer result (model.part_of receiver text.now begin end) }
{
    if end >= TWO_TO_31 || end as usize > text.len() || begin > end {
        return Ok(StringAnswer::Outside);
    }
    if begin == 0 && end as usize == text.len() {
        return Ok(StringAnswer::Same(receiver));
    }
    let units = Vec::from_slice(alloc, &text[begin as usize..end as usize])?;
    Ok(StringAnswer::Composed(units))
}

/// The text of an int in decimal: `valueOf`. The only error is a want of memory.
pub fn text_of_int(alloc: Global, number: i32) -> Result<StringAnswer, AllocError>
    ensures { IsAnswer result (model.Composes (signed_decimal number)) }
{
    let mut buffer = Buffer::new();
    let digits = buffer.format(number).as_bytes();
    let mut units = Vec::with_capacity(alloc, digits.len())?;
    for digit in digits {
        units.push_reserved(u32::from(*digit));
    }
    Ok(StringAnswer::Composed(units))
}

/// The text of a char, of which the word has the low bits: `valueOf`. The only error is a want of memory.
pub fn text_of_char(alloc: Global, word: u32) -> Result<StringAnswer, AllocError>
    ensures { IsAnswer result (model.Composes ((word % 2 ^ 16) ∷ [])) }
{
    let units = Vec::from_slice(alloc, &[word % 0x1_0000])?;
    Ok(StringAnswer::Composed(units))
}
