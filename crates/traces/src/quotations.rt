//! Texts as a trace shows them.

ghost use Rattle.std.specs.Prelude.{◌≡◌, ◌++◌, OnOk};
ghost use Rattle.traces.specs.Quotations.{quotation, shown, shown_units};

use crate::json::push_unit;
use crate::numbers::push_words;
use std::alloc::AllocError;

/// How many units are shown.
pub(crate) const MOST: usize = 40;

/// A unit in quotation marks.
fn push_shown(text: &mut Vec<u8>, unit: u16) -> Result<(), AllocError>
    ensures { OnOk result (text.new.items ≡ text.old.items ++ shown unit) }
{
    if unit == 10 {
        return push_words(text, "\\n");
    }
    push_unit(text, unit)
}

fn push_shown_units(text: &mut Vec<u8>, units: &[u16]) -> Result<(), AllocError>
    ensures { OnOk result (text.new.items ≡ text.old.items ++ shown_units units.now) }
{
    for unit in units {
        push_shown(text, *unit)?;
    }
    Ok(())
}

/// Writes a text in quotation marks behind another one, and `..` in the place of what stands behind its first 40 units.
pub(crate) fn push_quotation(text: &mut Vec<u8>, units: &[u16]) -> Result<(), AllocError>
    ensures { OnOk result (text.new.items ≡ text.old.items ++ quotation units.now) }
{
    push_words(text, "\"")?;
    if units.len() <= MOST {
        push_shown_units(text, units)?;
        return push_words(text, "\"");
    }
    let (first, _) = units.split_at(MOST);
    push_shown_units(text, first)?;
    push_words(text, "..\"")
}
