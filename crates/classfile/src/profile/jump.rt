//! Where instructions jump to, and the values of a `lookupswitch` (JVMS 4.9.1, 6.5).

ghost use Rattle.std.specs.Prelude.{◌≡◌, ◌-◌, not, map, suc, int_lt};
ghost use Rattle.std.specs.List.{list_any};
ghost use Rattle.model.specs.Instruction.{table_jump, lookup_pair};
ghost use Rattle.model.specs.InstructionStarts.{starts};
ghost use Rattle.model.specs.CodeParts.{count_from};
ghost use Rattle.model.specs.CodeConditions.{lands, jump_off_boundary, unsorted_matches};
ghost use Rattle.classfile.specs.View.{code_of};

use crate::Code;
use model::Instr;
use opcodes::{jump_count, lookup_pair, table_jump};

/// Whether a jump from an offset leads to an instruction boundary.
fn lands(code: &[u8], marks: &[bool], pc: usize, by: i32) -> bool
    requires { marks.now ≡ starts code.now }
    ensures { result ≡ lands code.now pc by }
{
    match pc.checked_add_signed(by as isize) {
        Some(target) => marks.get(target).copied().unwrap_or(false),
        None => false,
    }
}

/// Whether an instruction has a jump that leads to none.
pub(crate) fn jumps_off(code: &Code, marks: &[bool], pc: usize, instr: Instr) -> bool
    requires { marks.now ≡ starts code.now.code.items }
    ensures { result ≡ jump_off_boundary (code_of code.now) pc instr }
{
    let bytes = code.code.as_slice();
    match instr {
        Instr::If { by, .. } => !lands(bytes, marks, pc, by),
        Instr::IfInts { by, .. } => !lands(bytes, marks, pc, by),
        Instr::IfReferences { by, .. } => !lands(bytes, marks, pc, by),
        Instr::IfNull { by, .. } => !lands(bytes, marks, pc, by),
        Instr::Goto { by } => !lands(bytes, marks, pc, by),
        Instr::TableSwitch {
            default,
            low,
            high,
            at,
        } => {
            !lands(bytes, marks, pc, default)
                || table_jumps_off(bytes, marks, pc, at, jump_count(low, high))
        }
        Instr::LookupSwitch { default, pairs, at } => {
            !lands(bytes, marks, pc, default)
                || pairs_jump_off(bytes, marks, pc, at, pairs as usize)
        }
        _ => false,
    }
}

/// Whether one of the jumps of a `tableswitch` leads to no instruction boundary.
fn table_jumps_off(code: &[u8], marks: &[bool], pc: usize, at: usize, count: usize) -> bool
    requires { marks.now ≡ starts code.now }
    ensures { result ≡ list_any (λ by. not (lands code.now pc by)) (map (table_jump code.now at) (count_from 0 count)) }
{
    for k in 0..count {
        if !lands(code, marks, pc, table_jump(code, at, k)) {
            return true;
        }
    }
    false
}

/// Whether one of the jumps of a `lookupswitch` leads to no instruction boundary.
fn pairs_jump_off(code: &[u8], marks: &[bool], pc: usize, at: usize, count: usize) -> bool
    requires { marks.now ≡ starts code.now }
    ensures { result ≡ list_any (λ by.
        not (lands code.now pc by)) (map (λ k. (lookup_pair code.now at k).1) (count_from 0 count)) }
{
    for k in 0..count {
        let (_, by) = lookup_pair(code, at, k);
        if !lands(code, marks, pc, by) {
            return true;
        }
    }
    false
}

/// Whether it is a `lookupswitch` whose values don't rise.
pub(crate) fn has_unsorted_matches(code: &Code, instr: Instr) -> bool
    ensures { result ≡ unsorted_matches (code_of code.now) instr }
{
    match instr {
        Instr::LookupSwitch { pairs, at, .. } => pairs_fall(&code.code, at, pairs as usize),
        _ => false,
    }
}

/// Whether a value is not below the next.
fn pairs_fall(code: &[u8], at: usize, count: usize) -> bool
    ensures { result ≡ list_any (λ k. not (int_lt (lookup_pair code.now at k).0 (lookup_pair code.now at (suc k)).0))
        (count_from 0 (count - 1)) }
{
    for k in 0..count.saturating_sub(1) {
        let (value, _) = lookup_pair(code, at, k);
        let (next, _) = lookup_pair(code, at, k + 1);
        if value >= next {
            return true;
        }
    }
    false
}
