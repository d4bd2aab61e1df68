//! Where a row leads.

ghost use Rattle.std.specs.Prelude.{◌≡◌, ◌<◌, ◌^◌, [], ◌∷◌, map, IfOk};
ghost use Rattle.model.specs.Instruction.{table_jump, lookup_pair};
ghost use Rattle.model.specs.Rows.{target, counting};
ghost use Rattle.instruction_types.specs.operand_types.RowView.{to_in, others_in};

use crate::operand_types::row::Targets;
use opcodes::{jump_count, lookup_pair, table_jump};
use smallvec::SmallVec;
use std::alloc::{AllocError, Global};

/// Where a jump leads.
fn target_of(offset: usize, by: i32) -> usize
    requires { offset < 2 ^ 63 }
    ensures { result ≡ target offset by }
{
    let distance = by.unsigned_abs() as usize;
    if by < 0 {
        offset.saturating_sub(distance)
    } else {
        offset + distance
    }
}

/// Where a `tableswitch` leads whose jumps begin at `at`, by default first.
fn table_targets(
    alloc: Global,
    code: &[u8],
    offset: usize,
    default: usize,
    count: usize,
    at: usize,
) -> Result<SmallVec<usize, 2>, AllocError>
    requires { offset < 2 ^ 63 }
    ensures { IfOk result (λ all.
        all.items ≡ default ∷ map (λ k. target offset (table_jump code.now at k)) (counting 0 count)) }
{
    let mut all = SmallVec::new(alloc);
    all.push(default)?;
    for k in 0..count {
        all.push(target_of(offset, table_jump(code, at, k)))?;
    }
    Ok(all)
}

/// Where a `lookupswitch` leads whose pairs begin at `at`, by default first.
fn pair_targets(
    alloc: Global,
    code: &[u8],
    offset: usize,
    default: usize,
    pairs: u32,
    at: usize,
) -> Result<SmallVec<usize, 2>, AllocError>
    requires { offset < 2 ^ 63 }
    ensures { IfOk result (λ all.
        all.items ≡ default ∷ map (λ k. target offset (lookup_pair code.now at k).1) (counting 0 pairs)) }
{
    let mut all = SmallVec::new(alloc);
    all.push(default)?;
    for k in 0..pairs {
        all.push(target_of(offset, lookup_pair(code, at, k as usize).1))?;
    }
    Ok(all)
}

fn one_target(alloc: Global, to: usize) -> Result<SmallVec<usize, 2>, AllocError>
    ensures { IfOk result (λ all. all.items ≡ to ∷ []) }
{
    let mut all = SmallVec::new(alloc);
    all.push(to)?;
    Ok(all)
}

/// Where the row of an instruction at an offset leads, by default first.
pub(crate) fn targets_of(
    alloc: Global,
    code: &[u8],
    offset: usize,
    targets: Targets,
) -> Result<SmallVec<usize, 2>, AllocError>
    requires { offset < 2 ^ 63 }
    ensures { IfOk result (λ all. all.items ≡ to_in offset targets ∷ others_in code.now offset targets) }
{
    match targets {
        Targets::Next(next) => one_target(alloc, next),
        Targets::Jump(by) => one_target(alloc, target_of(offset, by)),
        Targets::Branch { by, next } => {
            let to = target_of(offset, by);
            Ok(SmallVec::from_buf(alloc, [next, to]))
        }
        Targets::Table {
            default,
            low,
            high,
            at,
        } => {
            let count = jump_count(low, high);
            table_targets(alloc, code, offset, target_of(offset, default), count, at)
        }
        Targets::Pairs { default, pairs, at } => {
            pair_targets(alloc, code, offset, target_of(offset, default), pairs, at)
        }
    }
}
