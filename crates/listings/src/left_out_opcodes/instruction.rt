//! An instruction that this machine leaves out, in the code of a method.

use crate::left_out_opcodes::mnemonics::mnemonic;

/// The opcode of `wide`.
const WIDE: u8 = 0xc4;

/// What an instruction has behind its opcode.
#[derive(Clone, Copy)]
pub enum Operands {
    /// Nothing.
    None,
    /// A local variable, which may be a part of the opcode.
    Local(u16),
    /// The index of a constant.
    Constant(u16),
    /// How many bytes further on it jumps.
    Jump(i32),
    /// The index of an array class, and a number of dimensions.
    Dimensions { class: u16, count: u8 },
}

/// An instruction that this machine leaves out.
#[derive(Clone, Copy)]
pub struct LeftOut {
    /// The opcode, behind `wide` that of the instruction which it widens.
    pub opcode: u8,
    pub is_wide: bool,
    /// How many bytes it has.
    pub length: usize,
    pub operands: Operands,
}

/// The instruction at an offset of the code, where it is one of the JVMS that this machine leaves out, and is whole.
pub fn left_out_at(code: &[u8], pc: usize) -> Option<LeftOut> {
    let opcode = byte_at(code, pc)?;
    if opcode == WIDE {
        return widened_at(code, pc);
    }
    if opcodes::mnemonic(opcode).is_some() || mnemonic(opcode).is_none() {
        return None;
    }
    let (length, operands) = operands_at(code, pc, opcode)?;
    Some(LeftOut {
        opcode,
        is_wide: false,
        length,
        operands,
    })
}

/// The instruction that `wide` widens.
fn widened_at(code: &[u8], pc: usize) -> Option<LeftOut> {
    let opcode = byte_at(code, pc.saturating_add(1))?;
    let local = short_at(code, pc.saturating_add(2))?;
    match opcode {
        0x16..=0x18 | 0x37..=0x39 | 0xa9 => Some(LeftOut {
            opcode,
            is_wide: true,
            length: 4,
            operands: Operands::Local(local),
        }),
        _ => None,
    }
}

/// The length of the instruction with this opcode at an offset, and its operands.
fn operands_at(code: &[u8], pc: usize, opcode: u8) -> Option<(usize, Operands)> {
    let at = pc.saturating_add(1);
    match opcode {
        0x14 => Some((3, Operands::Constant(short_at(code, at)?))),
        0x16..=0x18 | 0x37..=0x39 | 0xa9 => {
            Some((2, Operands::Local(u16::from(byte_at(code, at)?))))
        }
        0x1e..=0x29 => Some((1, Operands::Local(u16::from((opcode - 0x1e) % 4)))),
        0x3f..=0x4a => Some((1, Operands::Local(u16::from((opcode - 0x3f) % 4)))),
        0xa8 => Some((
            3,
            Operands::Jump(i32::from(short_at(code, at)?.cast_signed())),
        )),
        0xba => {
            let index = short_at(code, at)?;
            short_at(code, pc.saturating_add(3))?;
            Some((5, Operands::Constant(index)))
        }
        0xc5 => {
            let class = short_at(code, at)?;
            let count = byte_at(code, pc.saturating_add(3))?;
            Some((4, Operands::Dimensions { class, count }))
        }
        0xc9 => {
            let high = short_at(code, at)?;
            let low = short_at(code, pc.saturating_add(3))?;
            let by = u32::from(high) * 0x1_0000 + u32::from(low);
            Some((5, Operands::Jump(by.cast_signed())))
        }
        _ => Some((1, Operands::None)),
    }
}

fn byte_at(code: &[u8], at: usize) -> Option<u8> {
    code.get(at).copied()
}

/// The number of two bytes, the higher one first.
fn short_at(code: &[u8], at: usize) -> Option<u16> {
    let high = byte_at(code, at)?;
    let low = byte_at(code, at.saturating_add(1))?;
    Some(u16::from(high) * 256 + u16::from(low))
}
