//! The instruction boundaries of a method's code.

ghost use Rattle.std.specs.Prelude.{◌≡◌, ◌<◌, ◌↔◌, ℕ, false, IfOk, IsTrue, length, slice_index_or};
ghost use Rattle.model.specs.Instruction.{HasBytes};
ghost use Rattle.model.specs.InstructionStarts.{IsStart, starts, step_at};

use crate::decoding::length_at;
use std::alloc::{AllocError, Global};

/// How far the next boundary is.
fn step_at(code: &[u8], pc: usize) -> usize
    requires { pc < length code.now }
    ensures value { result ≡ step_at code.now pc }
    ensures within { HasBytes code.now pc result }
{
    length_at(code, pc).unwrap_or(1)
}

/// Whether each offset of the code is an instruction boundary: 0, and past each boundary's instruction the next.
/// A byte that begins no whole instruction counts as one byte long. `AllocError` for want of memory.
pub fn starts(alloc: Global, code: &[u8]) -> Result<Vec<bool>, AllocError>
    ensures marks { IfOk result (λ v. v.items ≡ starts code.now) }
    ensures boundaries { IfOk result (λ v. (pc : ℕ) → IsTrue (slice_index_or v.items pc false) ↔ IsStart code.now pc) }
{
    let mut marks = Vec::with_capacity(alloc, code.len())?;
    let mut inside = 0;
    for pc in 0..code.len() {
        if inside == 0 {
            marks.push(true)?;
            inside = step_at(code, pc) - 1;
        } else {
            marks.push(false)?;
            inside -= 1;
        }
    }
    Ok(marks)
}
