//! The text of ints, as a run prints them.

ghost use Rattle.std.specs.Prelude.{◌≡◌, ◌++◌, IfOk, OnOk};
ghost use Rattle.model.specs.Texts.{number_line};
ghost use Rattle.search.specs.run_outcomes.Outcomes.{printed_text};

use std::alloc::{AllocError, Global};

/// The unit that ends a line.
const LINE_FEED: u16 = 10;

/// The text of ints, each in decimal and a line feed behind it; of none, it is empty. The only error is a want of
/// memory.
pub fn printed_lines(alloc: Global, numbers: &[i32]) -> Result<Vec<u16>, AllocError>
    ensures { IfOk result (λ lines. lines.items ≡ printed_text numbers.now) }
{
    let mut lines = Vec::new(alloc);
    for number in numbers {
        push_number_line(alloc, &mut lines, *number)?;
    }
    Ok(lines)
}

/// Appends an int in decimal, and a line feed.
fn push_number_line(alloc: Global, units: &mut Vec<u16>, number: i32) -> Result<(), AllocError>
    ensures { OnOk result (units.new.items ≡ units.old.items ++ number_line number) }
{
    push_bytes(units, format!(in alloc; "{number}")?.as_bytes())?;
    units.push(LINE_FEED)?;
    Ok(())
}

/// Appends the units that are these bytes.
fn push_bytes(units: &mut Vec<u16>, bytes: &[u8]) -> Result<(), AllocError>
    ensures { OnOk result (units.new.items ≡ units.old.items ++ bytes.now) }
{
    for byte in bytes {
        units.push(u16::from(*byte))?;
    }
    Ok(())
}
