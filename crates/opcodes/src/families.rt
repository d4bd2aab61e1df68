//! The instructions of which several opcodes have the same operands. Each comes with its length in bytes.

ghost use Rattle.std.specs.Prelude.{◌≡◌, ◌<◌, ◌+◌, length};
ghost use Rattle.model.specs.declared.instr.Instr.TheVariants.{Load, Store, If, IfInts, IfReferences, IfNull, Field, Invoke};
ghost use Rattle.model.specs.OpcodeTable.{Byte, Short, SignedShort};
ghost use Rattle.model.specs.Instruction.{made_of, wide_at};

use crate::bytes::{i2_at, u1_at, u2_at};
use model::{Comparison, FieldAccess, Instr, Invocation, Kind};

pub(crate) fn load(code: &[u8], pc: usize, kind: Kind) -> Option<(Instr, usize)>
    requires { pc < length code.now }
    ensures { result ≡ made_of (Byte (λ local. Load kind local)) code.now pc }
{
    let local = u16::from(u1_at(code, pc + 1)?);
    Some((Instr::Load { kind, local }, 2))
}

pub(crate) fn store(code: &[u8], pc: usize, kind: Kind) -> Option<(Instr, usize)>
    requires { pc < length code.now }
    ensures { result ≡ made_of (Byte (λ local. Store kind local)) code.now pc }
{
    let local = u16::from(u1_at(code, pc + 1)?);
    Some((Instr::Store { kind, local }, 2))
}

pub(crate) fn compare(code: &[u8], pc: usize, comparison: Comparison) -> Option<(Instr, usize)>
    requires { pc < length code.now }
    ensures { result ≡ made_of (SignedShort (λ by. If comparison by)) code.now pc }
{
    let by = i32::from(i2_at(code, pc + 1)?);
    Some((Instr::If { comparison, by }, 3))
}

pub(crate) fn compare_ints(code: &[u8], pc: usize, comparison: Comparison) -> Option<(Instr, usize)>
    requires { pc < length code.now }
    ensures { result ≡ made_of (SignedShort (λ by. IfInts comparison by)) code.now pc }
{
    let by = i32::from(i2_at(code, pc + 1)?);
    Some((Instr::IfInts { comparison, by }, 3))
}

pub(crate) fn compare_references(code: &[u8], pc: usize, equal: bool) -> Option<(Instr, usize)>
    requires { pc < length code.now }
    ensures { result ≡ made_of (SignedShort (λ by. IfReferences equal by)) code.now pc }
{
    let by = i32::from(i2_at(code, pc + 1)?);
    Some((Instr::IfReferences { equal, by }, 3))
}

pub(crate) fn compare_with_null(code: &[u8], pc: usize, null: bool) -> Option<(Instr, usize)>
    requires { pc < length code.now }
    ensures { result ≡ made_of (SignedShort (λ by. IfNull null by)) code.now pc }
{
    let by = i32::from(i2_at(code, pc + 1)?);
    Some((Instr::IfNull { null, by }, 3))
}

pub(crate) fn field(code: &[u8], pc: usize, access: FieldAccess) -> Option<(Instr, usize)>
    requires { pc < length code.now }
    ensures { result ≡ made_of (Short (λ index. Field access index)) code.now pc }
{
    let index = u2_at(code, pc + 1)?;
    Some((Instr::Field { access, index }, 3))
}

pub(crate) fn invoke(code: &[u8], pc: usize, invocation: Invocation) -> Option<(Instr, usize)>
    requires { pc < length code.now }
    ensures { result ≡ made_of (Short (λ index. Invoke invocation index)) code.now pc }
{
    let index = u2_at(code, pc + 1)?;
    Some((Instr::Invoke { invocation, index }, 3))
}

/// The instruction that a `wide` widens.
#[tactic(auto, unfolding(model::specs::Instruction::wide_at))]
pub(crate) fn wide(code: &[u8], pc: usize) -> Option<(Instr, usize)>
    requires { pc < length code.now }
    ensures { result ≡ wide_at code.now pc }
{
    let opcode = u1_at(code, pc + 1)?;
    let local = u2_at(code, pc + 2)?;
    let kind = match opcode {
        0x15 | 0x36 => Kind::Int,
        _ => Kind::Reference,
    };
    match opcode {
        0x15 | 0x19 => Some((Instr::Load { kind, local }, 4)),
        0x36 | 0x3a => Some((Instr::Store { kind, local }, 4)),
        0x84 => {
            let by = i2_at(code, pc + 4)?;
            Some((Instr::Increment { local, by }, 6))
        }
        _ => None,
    }
}
