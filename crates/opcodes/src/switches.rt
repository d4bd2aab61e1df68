//! The operands of `tableswitch` and `lookupswitch`.

ghost use Rattle.std.specs.Prelude.{◌≡◌, ◌<◌, ◌≤◌, ◌+◌, ◌^◌, length};
ghost use Rattle.model.specs.Instruction.{ending_at, operands_of, jump_count, table_switch_at, lookup_switch_at, table_jump, lookup_pair};

use crate::bytes::{has, i4_at, u4_at};
use model::Instr;

/// An instruction, and its length in bytes, if the last `len` of them are there from an offset on.
fn ending_at(code: &[u8], pc: usize, at: usize, len: usize, instr: Instr) -> Option<(Instr, usize)>
    requires { pc ≤ at }
    ensures { result ≡ ending_at code.now pc at len instr }
{
    if has(code, at, len) {
        Some((instr, at + len - pc))
    } else {
        None
    }
}

/// Where the operands of a switch begin.
fn operands_of(pc: usize) -> usize
    requires { pc < 2 ^ 63 }
    ensures { result ≡ operands_of pc }
{
    pc + 4 - pc % 4
}

/// How many jumps a `tableswitch` has, from its lowest value to its highest.
pub fn jump_count(low: i32, high: i32) -> usize
    ensures value { result ≡ jump_count low high }
    ensures small { result ≤ 2 ^ 33 }
{
    (i64::from(high) - i64::from(low)).unsigned_abs() as usize + 1
}

#[tactic(auto, unfolding(model::specs::Instruction::table_switch_at))]
pub(crate) fn table_switch(code: &[u8], pc: usize) -> Option<(Instr, usize)>
    requires { pc < length code.now }
    ensures { result ≡ table_switch_at code.now pc }
{
    let at = operands_of(pc);
    let default = i4_at(code, at)?;
    let low = i4_at(code, at + 4)?;
    let high = i4_at(code, at + 8)?;
    if low > high {
        return None;
    }
    let at = at + 12;
    let switch = Instr::TableSwitch {
        default,
        low,
        high,
        at,
    };
    ending_at(code, pc, at, 4 * jump_count(low, high), switch)
}

#[tactic(auto, unfolding(model::specs::Instruction::lookup_switch_at))]
pub(crate) fn lookup_switch(code: &[u8], pc: usize) -> Option<(Instr, usize)>
    requires { pc < length code.now }
    ensures { result ≡ lookup_switch_at code.now pc }
{
    let at = operands_of(pc);
    let default = i4_at(code, at)?;
    let pairs = u4_at(code, at + 4)?;
    if pairs >= 0x8000_0000 {
        return None;
    }
    let at = at + 8;
    let switch = Instr::LookupSwitch { default, pairs, at };
    ending_at(code, pc, at, 8 * pairs as usize, switch)
}

/// The `k`th jump of a `tableswitch` whose jumps begin at `at`, counted from the switch's opcode. It is 0 where
/// the code has no four bytes for it.
pub fn table_jump(code: &[u8], at: usize, k: usize) -> i32
    ensures { result ≡ table_jump code.now at k }
{
    if k >= code.len() / 4 || at >= code.len() {
        return 0;
    }
    i4_at(code, at + 4 * k).unwrap_or(0)
}

/// The `k`th pair of a `lookupswitch` whose pairs begin at `at`: a value, and the jump for it, counted from the
/// switch's opcode. Each is 0 where the code has no four bytes for it.
pub fn lookup_pair(code: &[u8], at: usize, k: usize) -> (i32, i32)
    ensures { result ≡ lookup_pair code.now at k }
{
    if k > code.len() / 8 || at >= code.len() {
        return (0, 0);
    }
    let place = at + 8 * k;
    let value = i4_at(code, place).unwrap_or(0);
    (value, i4_at(code, place + 4).unwrap_or(0))
}
