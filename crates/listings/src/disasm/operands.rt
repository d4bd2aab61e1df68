//! The operands of an instruction.

ghost use Rattle.std.specs.Prelude.{◌≡◌, ◌++◌, OnOk};
ghost use Rattle.model.specs.Report.{number, signed_number};
ghost use Rattle.model.specs.Listing.{operand, operands, target};

use crate::disasm::names::{push_class, push_constant, push_element, push_member};
use crate::disasm::numbers::{push_number, push_signed, push_target};
use crate::disasm::switches::{push_lookup, push_table};
use classfile::ClassFile;
use model::Instr;
use std::alloc::AllocError;

fn push_number_operand(text: &mut Vec<u8>, n: u16) -> Result<(), AllocError>
    ensures { OnOk result (text.new.items ≡ text.old.items ++ operand (number n)) }
{
    text.push(b' ')?;
    push_number(text, n)
}

fn push_signed_operand(text: &mut Vec<u8>, n: i32) -> Result<(), AllocError>
    ensures { OnOk result (text.new.items ≡ text.old.items ++ operand (signed_number n)) }
{
    text.push(b' ')?;
    push_signed(text, i64::from(n))
}

fn push_jump(text: &mut Vec<u8>, pc: usize, by: i32) -> Result<(), AllocError>
    ensures { OnOk result (text.new.items ≡ text.old.items ++ operand (target pc by)) }
{
    text.push(b' ')?;
    push_target(text, pc, by)
}

/// The operands of the instruction at `pc`, each behind a space.
pub(crate) fn push_operands(
    text: &mut Vec<u8>,
    file: &ClassFile,
    code: &[u8],
    pc: usize,
    instr: Instr,
) -> Result<(), AllocError>
    ensures { OnOk result (text.new.items ≡ text.old.items ++ operands file.now.pool code.now pc instr) }
{
    match instr {
        Instr::Const(value) => push_signed_operand(text, value),
        Instr::LoadConstant { index } => push_constant(text, file, index),
        Instr::Load { kind: _, local } => push_number_operand(text, local),
        Instr::Store { kind: _, local } => push_number_operand(text, local),
        Instr::Increment { local, by } => {
            push_number_operand(text, local)?;
            push_signed_operand(text, i32::from(by))
        }
        Instr::If { comparison: _, by } => push_jump(text, pc, by),
        Instr::IfInts { comparison: _, by } => push_jump(text, pc, by),
        Instr::IfReferences { equal: _, by } => push_jump(text, pc, by),
        Instr::IfNull { null: _, by } => push_jump(text, pc, by),
        Instr::Goto { by } => push_jump(text, pc, by),
        Instr::TableSwitch {
            default,
            low,
            high,
            at,
        } => push_table(text, code, pc, default, low, high, at),
        Instr::LookupSwitch { default, pairs, at } => {
            push_lookup(text, code, pc, default, pairs, at)
        }
        Instr::Field { access: _, index } => {
            push_member(text, index, file.field_reference(index))
        }
        Instr::Invoke {
            invocation: _,
            index,
        } => push_member(text, index, file.method_reference(index)),
        Instr::InvokeInterface {
            index,
            count,
            last: _,
        } => {
            push_member(text, index, file.interface_method_reference(index))?;
            push_number_operand(text, u16::from(count))
        }
        Instr::New { index } => push_class(text, file, index),
        Instr::NewArray { code } => push_element(text, code),
        Instr::NewReferenceArray { index } => push_class(text, file, index),
        Instr::CheckCast { index } => push_class(text, file, index),
        Instr::InstanceOf { index } => push_class(text, file, index),
        _ => Ok(()),
    }
}
