//! Parts of texts and of arrays of chars.

ghost use Rattle.std.specs.Prelude.{◌≡◌, ◌-◌, ◌++◌, ◌&&◌, IfOk, codes, map, length, nat_le};
ghost use Rattle.std.specs.Fmt.{signed_decimal};
ghost use Rattle.model.specs.StringMethods.{is_at_most};
ghost use Rattle.model.specs.ReferenceTypes.{Char};
ghost use Rattle.model.specs.Worlds.{kept};

use crate::builders::appended_int;
use std::alloc::{AllocError, Global};

const TWO_TO_31: u32 = 0x8000_0000;

/// What the name of a thread without one begins with: `Thread-`.
const THREAD: &[u32] = &[84, 104, 114, 101, 97, 100, 45];

/// Whether so many units from an offset on, by the bits of both, are among some: `String.<init>(char[], int, int)`.
pub fn has_part(units: &[u32], offset: u32, count: u32) -> bool
    ensures { result ≡ (is_at_most (length units.now) count && is_at_most (length units.now - count) offset) }
{
    count < TWO_TO_31
        && count as usize <= units.len()
        && offset < TWO_TO_31
        && offset as usize <= units.len() - count as usize
}

/// Whether the units from an index up to another, by the bits of both, are among some: `getChars`.
pub fn has_bounds(units: &[u32], begin: u32, end: u32) -> bool
    ensures { result ≡ (is_at_most (length units.now) end && is_at_most end begin) }
{
    end < TWO_TO_31 && end as usize <= units.len() && begin < TWO_TO_31 && begin <= end
}

/// Whether an array has room for so many units from an index on, which is told by its bits: `getChars`.
pub fn has_room(array: &[u32], index: u32, count: u32) -> bool
    ensures { result ≡ (nat_le count (length array.now) && is_at_most (length array.now - count) index) }
{
    count as usize <= array.len()
        && index < TWO_TO_31
        && index as usize <= array.len() - count as usize
}

/// The chars that words are, by their low bits. The only error is a want of memory.
pub fn chars(alloc: Global, words: &[u32]) -> Result<Vec<u32>, AllocError>
    ensures { IfOk result (λ units. units.items ≡ map (kept Char) words.now) }
{
    let mut units = Vec::with_capacity(alloc, words.len())?;
    for word in words {
        units.push(*word % 0x1_0000)?;
    }
    Ok(units)
}

/// The name of a thread without one, by its number. The only error is a want of memory.
pub fn thread_name(alloc: Global, number: i32) -> Result<Vec<u32>, AllocError>
    ensures { IfOk result (λ units. units.items ≡ codes "Thread-" ++ signed_decimal number) }
{
    appended_int(alloc, THREAD, number)
}
