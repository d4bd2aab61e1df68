//! Rows of bits: one for each column, in words of 64.

ghost use Rattle.std.specs.Prelude.{◌≡◌, ◌≢◌, ◌<◌, ◌≤◌, ◌*◌, ◌==◌, ◌||◌, ℕ, false, length, slice_index_or, bit_or, IfOk};
ghost use Rattle.types.specs.subclass_table.Rows.{has_bit};

use std::alloc::{AllocError, Global};

/// A row of so many words whose bits are all clear.
pub(crate) fn clear_row(alloc: Global, width: usize) -> Result<Vec<u64>, AllocError>
    ensures wide { IfOk result (λ row. length row.items ≡ width) }
    ensures clear { IfOk result (λ row. (column : ℕ) → has_bit row.items column ≡ false) }
{
    let mut row = Vec::new(alloc);
    row.resize(width, 0)?;
    Ok(row)
}

/// Sets bits in a word of a row.
fn set_in_word(row: &mut Vec<u64>, place: usize, bits: u64)
    requires { place < length row.now.items }
    ensures wide { length row.new.items ≡ length row.old.items }
    ensures set { slice_index_or row.new.items place 0 ≡ bit_or (slice_index_or row.old.items place 0) bits }
    ensures others { (other : ℕ) → other ≢ place
        → slice_index_or row.new.items other 0 ≡ slice_index_or row.old.items other 0 }
{
    row[place] |= bits;
}

/// Sets the bit of a column.
pub(crate) fn set_bit(row: &mut Vec<u64>, column: usize)
    requires { column < length row.now.items * 64 }
    ensures wide { length row.new.items ≡ length row.old.items }
    ensures bits { (other : ℕ) → has_bit row.new.items other ≡ (has_bit row.old.items other || column == other) }
{
    set_in_word(row, column / 64, 1 << (column % 64));
}

/// Sets the bits that another row has, which is no wider.
pub(crate) fn add_row(row: &mut Vec<u64>, other: &[u64])
    ensures wide { length row.new.items ≡ length row.old.items }
    ensures bits { length other.now ≤ length row.old.items → (column : ℕ)
        → has_bit row.new.items column ≡ (has_bit row.old.items column || has_bit other.now column) }
{
    for place in 0..row.len() {
        let bits = other.get(place).copied().unwrap_or(0);
        set_in_word(row, place, bits);
    }
}
