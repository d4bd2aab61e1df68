//! The line of an instruction.

use crate::disasm::{instruction_line, push_hex_byte};
use crate::left_out_opcodes::{LeftOut, Operands, left_out_at, mnemonic};
use crate::named_listing::debug::{line_at, variable_at};
use crate::named_listing::text::{Comment, push_number, push_quoted};
use crate::printed_names::push_printed;
use classfile::{ClassFile, Code, Constant};
use model::Instr;
use opcodes::sized_at;
use std::alloc::{AllocError, Global};

/// Adds the line of what begins at an offset, and answers how many bytes it has.
pub(crate) fn push_instruction(
    alloc: Global,
    text: &mut Vec<u8>,
    file: &ClassFile,
    code: &Code,
    pc: usize,
) -> Result<usize, AllocError> {
    if pc >= code.code.len() {
        return Ok(1);
    }
    match left_out_at(&code.code, pc) {
        Some(left_out) => {
            push_left_out(text, file, code, pc, left_out)?;
            Ok(left_out.length)
        }
        None => {
            let line = instruction_line(alloc, file, &code.code, pc)?;
            text.extend_from_slice(without_end(&line))?;
            push_known(text, file, code, pc)
        }
    }
}

/// The line without its line feed.
pub(crate) fn without_end(line: &[u8]) -> &[u8] {
    line.strip_suffix(b"\n").unwrap_or(line)
}

/// Adds what stands behind an instruction that this machine has, or a byte that begins none.
fn push_known(
    text: &mut Vec<u8>,
    file: &ClassFile,
    code: &Code,
    pc: usize,
) -> Result<usize, AllocError> {
    let mut comment = Comment::new(text);
    push_line(&mut comment, file, code, pc)?;
    let length = match sized_at(&code.code, pc) {
        Some((instr, length)) => {
            push_named(&mut comment, file, code, pc, instr, length)?;
            length
        }
        None => 1,
    };
    text.push(b'\n')?;
    Ok(length)
}

fn push_line(
    comment: &mut Comment<'_>,
    file: &ClassFile,
    code: &Code,
    pc: usize,
) -> Result<(), AllocError> {
    if let Some(line) = line_at(file, code, pc) {
        let text = comment.part()?;
        text.extend_from_slice(b"line ")?;
        push_number(text, i64::from(line))?;
    }
    Ok(())
}

/// Adds the name of the local variable, or the text of the constant, of an instruction.
fn push_named(
    comment: &mut Comment<'_>,
    file: &ClassFile,
    code: &Code,
    pc: usize,
    instr: Instr,
    length: usize,
) -> Result<(), AllocError> {
    match instr {
        Instr::Load { kind: _, local } | Instr::Increment { local, by: _ } => {
            push_variable(comment, file, code, local, pc)
        }
        // What is stored there has its name from the next instruction on.
        Instr::Store { kind: _, local } => {
            push_variable(comment, file, code, local, pc.saturating_add(length))
        }
        Instr::LoadConstant { index } => push_constant(comment, file, index),
        _ => Ok(()),
    }
}

fn push_variable(
    comment: &mut Comment<'_>,
    file: &ClassFile,
    code: &Code,
    local: u16,
    pc: usize,
) -> Result<(), AllocError> {
    if let Some(name) = variable_at(file, code, local, pc) {
        push_printed(comment.part()?, name)?;
    }
    Ok(())
}

/// Adds a constant that the listing tells by its index: a String by its text, a number by its kind, a `long` in decimal
/// and the others by their bits.
fn push_constant(
    comment: &mut Comment<'_>,
    file: &ClassFile,
    index: u16,
) -> Result<(), AllocError> {
    if let Some(string) = file.string(index) {
        let text = comment.part()?;
        text.extend_from_slice(b"String ")?;
        return push_quoted(text, string);
    }
    match file.constant(index) {
        Some(Constant::Long(bits)) => {
            let text = comment.part()?;
            text.extend_from_slice(b"long ")?;
            push_number(text, bits.cast_signed())
        }
        Some(Constant::Float(bits)) => { push_bits(comment, b"float 0x", &bits.to_be_bytes()) }
        Some(Constant::Double(bits)) => { push_bits(comment, b"double 0x", &bits.to_be_bytes()) }
        _ => Ok(()),
    }
}

fn push_bits(comment: &mut Comment<'_>, kind: &[u8], bytes: &[u8]) -> Result<(), AllocError> {
    let text = comment.part()?;
    text.extend_from_slice(kind)?;
    for byte in bytes {
        push_hex_byte(text, *byte)?;
    }
    Ok(())
}

/// Adds the line of an instruction that this machine leaves out.
fn push_left_out(
    text: &mut Vec<u8>,
    file: &ClassFile,
    code: &Code,
    pc: usize,
    left_out: LeftOut,
) -> Result<(), AllocError> {
    push_offset(text, pc)?;
    text.push(b' ')?;
    let end = pc.saturating_add(left_out.length);
    for byte in code.code.get(pc..end).unwrap_or(&[]) {
        push_hex_byte(text, *byte)?;
    }
    text.push(b' ')?;
    if left_out.is_wide {
        text.extend_from_slice(b"wide ")?;
    }
    text.extend_from_slice(mnemonic(left_out.opcode).unwrap_or("unknown").as_bytes())?;
    push_operands(text, file, pc, left_out)?;
    let mut comment = Comment::new(text);
    push_line(&mut comment, file, code, pc)?;
    push_left_out_name(&mut comment, file, code, end, left_out)?;
    text.push(b'\n')?;
    Ok(())
}

/// Adds an offset in five digits or more.
fn push_offset(text: &mut Vec<u8>, pc: usize) -> Result<(), AllocError> {
    for power in [10000usize, 1000, 100, 10] {
        if pc < power {
            text.push(b'0')?;
        }
    }
    push_number(text, i64::try_from(pc).unwrap_or(i64::MAX))
}

/// Adds the operands, each behind a space. An instruction of one byte has none.
fn push_operands(
    text: &mut Vec<u8>,
    file: &ClassFile,
    pc: usize,
    left_out: LeftOut,
) -> Result<(), AllocError> {
    if left_out.length == 1 {
        return Ok(());
    }
    text.push(b' ')?;
    match left_out.operands {
        Operands::None => Ok(()),
        Operands::Local(local) => push_number(text, i64::from(local)),
        Operands::Constant(index) => push_index(text, index),
        Operands::Jump(by) => {
            let pc = i64::try_from(pc).unwrap_or(i64::MAX);
            push_number(text, pc.saturating_add(i64::from(by)))
        }
        Operands::Dimensions { class, count } => {
            match file.class_name(class) {
                Some(name) => text.extend_from_slice(name)?,
                None => push_index(text, class)?,
            }
            text.push(b' ')?;
            push_number(text, i64::from(count))
        }
    }
}

fn push_index(text: &mut Vec<u8>, index: u16) -> Result<(), AllocError> {
    text.push(b'#')?;
    push_number(text, i64::from(index))
}

/// Adds the name of its local variable, or its constant. Also what is loaded is sought from the end of the
/// instruction on, since the ranges of variables begin and end at instructions.
fn push_left_out_name(
    comment: &mut Comment<'_>,
    file: &ClassFile,
    code: &Code,
    end: usize,
    left_out: LeftOut,
) -> Result<(), AllocError> {
    match left_out.operands {
        Operands::Local(local) => push_variable(comment, file, code, local, end),
        Operands::Constant(index) => push_constant(comment, file, index),
        _ => Ok(()),
    }
}
