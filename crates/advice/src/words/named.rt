//! An instruction in words: its mnemonic, and what it names in the constant pool.

use crate::words::line::Line;
use classfile::ClassFile;
use listings::left_out_opcodes::mnemonic;
use model::Instr;
use opcodes::decode_at;
use std::alloc::AllocError;

/// The opcode of `wide`.
const WIDE: u8 = 0xc4;

/// What an instruction names: a class, or a member of one.
#[derive(Clone, Copy)]
pub struct Named<'a> {
    /// The name of the class, or the descriptor of an array class.
    pub class: &'a [u8],
    /// The name and the descriptor of the member.
    pub member: Option<(&'a [u8], &'a [u8])>,
    /// Whether the member is a field.
    pub is_field: bool,
}

impl<'a> Named<'a> {
    fn of_class(name: Option<&'a [u8]>) -> Option<Named<'a>> {
        Some(Named {
            class: name?,
            member: None,
            is_field: false,
        })
    }

    fn of_member(member: Option<classfile::Reference<'a>>, is_field: bool) -> Option<Named<'a>> {
        let member = member?;
        Some(Named {
            class: member.class,
            member: Some((member.name, member.descriptor)),
            is_field,
        })
    }
}

/// What an instruction names in the constant pool.
pub(crate) fn named_by(file: &ClassFile, instr: Instr) -> Option<Named<'_>> {
    match instr {
        Instr::Field { index, .. } => Named::of_member(file.field_reference(index), true),
        Instr::Invoke { index, .. } => Named::of_member(file.method_reference(index), false),
        Instr::InvokeInterface { index, .. } => {
            Named::of_member(file.interface_method_reference(index), false)
        }
        Instr::New { index }
        | Instr::NewReferenceArray { index }
        | Instr::CheckCast { index }
        | Instr::InstanceOf { index }
        | Instr::LoadConstant { index } => Named::of_class(file.class_name(index)),
        _ => None,
    }
}

/// What the instruction at an offset of the code names in the constant pool.
pub fn named_at<'a>(file: &'a ClassFile, code: &[u8], pc: usize) -> Option<Named<'a>> {
    named_by(file, decode_at(code, pc)?)
}

/// Adds the mnemonic of what begins at an offset, or its first byte where the JVMS has no such instruction.
fn say_mnemonic(line: &mut Line, code: &[u8], pc: usize) -> Result<(), AllocError> {
    let Some(opcode) = code.get(pc).copied() else {
        return line.say("the end of the code");
    };
    let Some(word) = mnemonic(opcode) else {
        line.say("the byte ")?;
        return line.byte(opcode);
    };
    line.say(word)?;
    if opcode == WIDE {
        if let Some(widened) = code.get(pc.saturating_add(1)) {
            if let Some(word) = mnemonic(*widened) {
                line.say(" ")?;
                line.say(word)?;
            }
        }
    }
    Ok(())
}

/// Adds the instruction at an offset of the code.
pub fn say_instruction(
    line: &mut Line,
    file: &ClassFile,
    code: &[u8],
    pc: usize,
) -> Result<(), AllocError> {
    say_mnemonic(line, code, pc)?;
    let Some(named) = named_at(file, code, pc) else {
        return Ok(());
    };
    line.say(" ")?;
    line.name(named.class)?;
    if let Some((name, descriptor)) = named.member {
        line.say(".")?;
        line.name(name)?;
        line.say(":")?;
        line.name(descriptor)?;
    }
    Ok(())
}
