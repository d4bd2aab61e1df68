//! The cases of switches.

ghost use Rattle.std.specs.Prelude.{◌≡◌, ◌<◌, ◌^◌, ◌++◌, OnOk};
ghost use Rattle.model.specs.Instruction.{jump_count};
ghost use Rattle.model.specs.Listing.{default_case, each_below, lookup_case, switch_case, table_case};

use crate::disasm::numbers::{push_signed, push_target};
use opcodes::{jump_count, lookup_pair, table_jump};
use std::alloc::AllocError;

fn push_default(text: &mut Vec<u8>, pc: usize, default: i32) -> Result<(), AllocError>
    ensures { OnOk result (text.new.items ≡ text.old.items ++ default_case pc default) }
{
    text.extend_from_slice(b" default ")?;
    push_target(text, pc, default)
}

fn push_case(text: &mut Vec<u8>, pc: usize, value: i64, by: i32) -> Result<(), AllocError>
    ensures { OnOk result (text.new.items ≡ text.old.items ++ switch_case pc value by) }
{
    text.push(b' ')?;
    push_signed(text, value)?;
    text.push(b':')?;
    push_target(text, pc, by)
}

/// The `k`th case of the `tableswitch` at `pc` whose jumps begin at `at`.
fn push_table_case(
    text: &mut Vec<u8>,
    code: &[u8],
    pc: usize,
    low: i32,
    at: usize,
    k: usize,
) -> Result<(), AllocError>
    requires { k < 2 ^ 62 }
    ensures { OnOk result (text.new.items ≡ text.old.items ++ table_case code.now pc low at k) }
{
    let value = i64::from(low) + k as i64;
    push_case(text, pc, value, table_jump(code, at, k))
}

/// The `k`th case of the `lookupswitch` at `pc` whose pairs begin at `at`.
fn push_lookup_case(
    text: &mut Vec<u8>,
    code: &[u8],
    pc: usize,
    at: usize,
    k: usize,
) -> Result<(), AllocError>
    ensures { OnOk result (text.new.items ≡ text.old.items ++ lookup_case code.now pc at k) }
{
    let (value, by) = lookup_pair(code, at, k);
    push_case(text, pc, i64::from(value), by)
}

fn push_table_cases(
    text: &mut Vec<u8>,
    code: &[u8],
    pc: usize,
    low: i32,
    high: i32,
    at: usize,
) -> Result<(), AllocError>
    ensures { OnOk result (text.new.items
        ≡ text.old.items ++ each_below (table_case code.now pc low at) (jump_count low high)) }
{
    'cases: for k in 0..jump_count(low, high) {
        push_table_case(text, code, pc, low, at, k)?;
    }
    Ok(())
}

fn push_lookup_cases(
    text: &mut Vec<u8>,
    code: &[u8],
    pc: usize,
    at: usize,
    count: usize,
) -> Result<(), AllocError>
    ensures { OnOk result (text.new.items ≡ text.old.items ++ each_below (lookup_case code.now pc at) count) }
{
    'cases: for k in 0..count {
        push_lookup_case(text, code, pc, at, k)?;
    }
    Ok(())
}

/// The operands of the `tableswitch` at `pc` whose jumps begin at `at`.
pub(crate) fn push_table(
    text: &mut Vec<u8>,
    code: &[u8],
    pc: usize,
    default: i32,
    low: i32,
    high: i32,
    at: usize,
) -> Result<(), AllocError>
    ensures { OnOk result (text.new.items ≡ text.old.items
        ++ (default_case pc default ++ each_below (table_case code.now pc low at) (jump_count low high))) }
{
    push_default(text, pc, default)?;
    push_table_cases(text, code, pc, low, high, at)
}

/// The operands of the `lookupswitch` at `pc` whose pairs begin at `at`.
pub(crate) fn push_lookup(
    text: &mut Vec<u8>,
    code: &[u8],
    pc: usize,
    default: i32,
    pairs: u32,
    at: usize,
) -> Result<(), AllocError>
    ensures { OnOk result (text.new.items
        ≡ text.old.items ++ (default_case pc default ++ each_below (lookup_case code.now pc at) pairs)) }
{
    push_default(text, pc, default)?;
    push_lookup_cases(text, code, pc, at, pairs as usize)
}
