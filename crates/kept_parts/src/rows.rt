//! Rows of words: numbers and options in them.

ghost use Rattle.std.specs.Prelude.{◌≡◌, ◌++◌, ◌∷◌, [], IfOk, OnOk};
ghost use Rattle.kept_parts.specs.Rows.{option_row, flag_code, flags_row};

use crate::reader::Reader;
use std::alloc::{AllocError, Global};

/// One more word.
pub fn push(row: &mut Vec<u32>, word: u32) -> Result<(), AllocError>
    ensures { OnOk result (row.new.items ≡ row.old.items ++ word ∷ []) }
{
    row.push(word)?;
    Ok(())
}

/// One more word, by a number that fits one. An error, too, where it does not.
pub(crate) fn push_number(row: &mut Vec<u32>, number: usize) -> Result<(), AllocError>
    ensures { OnOk result (row.new.items ≡ row.old.items ++ number ∷ []) }
{
    if number > u32::MAX as usize {
        return Err(AllocError);
    }
    push(row, number as u32)
}

/// Two more words.
pub(crate) fn push_two(row: &mut Vec<u32>, first: u32, second: u32) -> Result<(), AllocError>
    ensures { OnOk result (row.new.items ≡ row.old.items ++ first ∷ second ∷ []) }
{
    push(row, first)?;
    push(row, second)
}

/// Three more words.
pub(crate) fn push_three(
    row: &mut Vec<u32>,
    first: u32,
    second: u32,
    third: u32,
) -> Result<(), AllocError>
    ensures { OnOk result (row.new.items ≡ row.old.items ++ first ∷ second ∷ third ∷ []) }
{
    push(row, first)?;
    push_two(row, second, third)
}

/// The words of an option.
pub(crate) fn push_option(row: &mut Vec<u32>, option: Option<u32>) -> Result<(), AllocError>
    ensures { OnOk result (row.new.items ≡ row.old.items ++ option_row option) }
{
    match option {
        None => push(row, 0),
        Some(word) => push_two(row, 1, word),
    }
}

/// The option of the next words.
pub(crate) fn read_option(reader: &mut Reader<'_>) -> Result<Option<u32>, AllocError>
    ensures { IfOk result (λ option. reader.old.rest.now ≡ option_row option ++ reader.new.rest.now) }
{
    match reader.next_word()? {
        0 => Ok(None),
        1 => Ok(Some(reader.next_word()?)),
        _ => Err(AllocError),
    }
}

/// The word of a flag.
#[inline]
pub(crate) fn flag_code(flag: bool) -> u32
    ensures { result ≡ flag_code flag }
{
    if flag { 1 } else { 0 }
}

/// The flag of a word.
pub(crate) fn flag_of(word: u32) -> Result<bool, AllocError>
    ensures { IfOk result (λ flag. word ≡ flag_code flag) }
{
    match word {
        0 => Ok(false),
        1 => Ok(true),
        _ => Err(AllocError),
    }
}

/// The flag of the next word.
pub(crate) fn read_flag(reader: &mut Reader<'_>) -> Result<bool, AllocError>
    ensures { IfOk result (λ flag. reader.old.rest.now ≡ flag_code flag ∷ reader.new.rest.now) }
{
    flag_of(reader.next_word()?)
}

/// The number of 16 bits that a word is. An error where it is a larger one.
pub(crate) fn short_of(word: u32) -> Result<u16, AllocError>
    ensures { IfOk result (λ number. number ≡ word) }
{
    u16::try_from(word).map_err(|_| AllocError)
}

/// Flags, a word each.
pub fn push_flags(row: &mut Vec<u32>, flags: &[bool]) -> Result<(), AllocError>
    ensures { OnOk result (row.new.items ≡ row.old.items ++ flags_row flags.now) }
{
    'flags: for flag in flags {
        push(row, flag_code(*flag))?;
    }
    Ok(())
}

/// The flags of words.
pub fn read_flags(alloc: Global, row: &[u32]) -> Result<Vec<bool>, AllocError>
    ensures { IfOk result (λ flags. row.now ≡ flags_row flags.items) }
{
    let mut flags = Vec::with_capacity(alloc, row.len())?;
    'words: for word in row {
        flags.push(flag_of(*word)?)?;
    }
    Ok(flags)
}
