//! The line of an instruction.

ghost use Rattle.std.specs.Prelude.{◌≡◌, ◌<◌, ◌++◌, length, IfOk, OnOk};
ghost use Rattle.model.specs.Instruction.{sized_at};
ghost use Rattle.model.specs.Listing.{byte_at, bytes_of, instruction_line, meaning, mnemonic, mnemonic_word};

use crate::disasm::numbers::{push_hex_bytes, push_offset};
use crate::disasm::operands::push_operands;
use classfile::ClassFile;
use opcodes::{length_at, sized_at};
use std::alloc::{AllocError, Global};

/// The opcode of `wide`.
const WIDE: u8 = 0xc4;

/// The byte at an offset, 0 past the end.
fn byte_at(code: &[u8], pc: usize) -> u8
    ensures { result ≡ byte_at code.now pc }
{
    code.get(pc).copied().unwrap_or(0)
}

fn mnemonic_of(opcode: u8) -> &'static str
    ensures { result.now ≡ mnemonic_word opcode }
{
    opcodes::mnemonic(opcode).unwrap_or("unknown")
}

/// The mnemonic of the instruction at `pc`, behind `wide` that of the instruction which it widens.
fn push_mnemonic(text: &mut Vec<u8>, code: &[u8], pc: usize) -> Result<(), AllocError>
    requires { pc < length code.now }
    ensures { OnOk result (text.new.items ≡ text.old.items ++ mnemonic code.now pc) }
{
    let opcode = byte_at(code, pc);
    text.extend_from_slice(mnemonic_of(opcode).as_bytes())?;
    if opcode == WIDE {
        text.push(b' ')?;
        text.extend_from_slice(mnemonic_of(byte_at(code, pc + 1)).as_bytes())?;
    }
    Ok(())
}

/// The bytes from `pc` up to the next instruction.
fn bytes_of(code: &[u8], pc: usize) -> &[u8]
    requires { pc < length code.now }
    ensures { result.now ≡ bytes_of code.now pc }
{
    let length = length_at(code, pc).unwrap_or(1);
    &code[pc..pc + length]
}

/// Writes the mnemonic and the operands of what begins at `pc` behind a text.
pub fn push_meaning(
    text: &mut Vec<u8>,
    file: &ClassFile,
    code: &[u8],
    pc: usize,
) -> Result<(), AllocError>
    requires { pc < length code.now }
    ensures { OnOk result (text.new.items
        ≡ text.old.items ++ meaning file.now.pool code.now pc (sized_at code.now pc)) }
{
    let Some((instr, length)) = sized_at(code, pc) else {
        text.extend_from_slice(b"unknown")?;
        return Ok(());
    };
    push_mnemonic(text, code, pc)?;
    if length == 1 {
        return Ok(());
    }
    push_operands(text, file, code, pc, instr)
}

/// The line of what begins at `pc`: its offset, its bytes, its mnemonic and its operands.
pub fn instruction_line(
    alloc: Global,
    file: &ClassFile,
    code: &[u8],
    pc: usize,
) -> Result<Vec<u8>, AllocError>
    requires { pc < length code.now }
    ensures { IfOk result (λ text. text.items ≡ instruction_line file.now.pool code.now pc) }
{
    let mut text = Vec::new(alloc);
    push_offset(&mut text, pc)?;
    text.push(b' ')?;
    push_hex_bytes(&mut text, bytes_of(code, pc))?;
    text.push(b' ')?;
    push_meaning(&mut text, file, code, pc)?;
    text.push(b'\n')?;
    Ok(text)
}
