//! Texts with more behind them, as a StringBuilder makes them: `append`.

ghost use Rattle.std.specs.Prelude.{◌≡◌, ◌++◌, ◌%◌, ◌^◌, [], ◌∷◌, IfOk, codes};
ghost use Rattle.std.specs.Fmt.{signed_decimal};

use itoa::Buffer;
use std::alloc::{AllocError, Global};

/// The text of null.
const NULL: &[u8] = b"null";

/// A text with the units of another behind it. The only error is a want of memory.
pub fn appended(alloc: Global, text: &[u32], other: &[u32]) -> Result<Vec<u32>, AllocError>
    ensures { IfOk result (λ units. units.items ≡ text.now ++ other.now) }
{
    let mut units = Vec::with_capacity(alloc, text.len() + other.len())?;
    units.extend_from_slice(text)?;
    units.extend_from_slice(other)?;
    Ok(units)
}

/// A text with letters or digits behind it. The only error is a want of memory.
fn appended_bytes(alloc: Global, text: &[u32], bytes: &[u8]) -> Result<Vec<u32>, AllocError>
    ensures { IfOk result (λ units. units.items ≡ text.now ++ bytes.now) }
{
    let mut units = Vec::with_capacity(alloc, text.len() + bytes.len())?;
    units.extend_from_slice(text)?;
    for byte in bytes {
        units.push(u32::from(*byte))?;
    }
    Ok(units)
}

/// A text with an int in decimal behind it. The only error is a want of memory.
pub fn appended_int(alloc: Global, text: &[u32], number: i32) -> Result<Vec<u32>, AllocError>
    ensures { IfOk result (λ units. units.items ≡ text.now ++ signed_decimal number) }
{
    let mut buffer = Buffer::new();
    appended_bytes(alloc, text, buffer.format(number).as_bytes())
}

/// A text with a char behind it, of which the word has the low bits. The only error is a want of memory.
pub fn appended_char(alloc: Global, text: &[u32], word: u32) -> Result<Vec<u32>, AllocError>
    ensures { IfOk result (λ units. units.items ≡ text.now ++ (word % 2 ^ 16) ∷ []) }
{
    appended(alloc, text, &[word % 0x1_0000])
}

/// A text with that of null behind it. The only error is a want of memory.
pub fn appended_null(alloc: Global, text: &[u32]) -> Result<Vec<u32>, AllocError>
    ensures { IfOk result (λ units. units.items ≡ text.now ++ codes "null") }
{
    appended_bytes(alloc, text, NULL)
}
