//! Instructions that don't find what they name.

ghost use Rattle.std.specs.Prelude.{◌≡◌, true, false, MatchOption};
ghost use Rattle.std.specs.List.{list_any};
ghost use Rattle.model.specs.InstructionStarts.{starts, is_start};
ghost use Rattle.model.specs.CodeParts.{boundaries};
ghost use Rattle.model.specs.declared.instr.Instr.TheVariants as instrs;
ghost use Rattle.model.specs.Resolution.{unresolved_instruction};
ghost use Rattle.classfile.specs.View.{code_of, file_of};
ghost use Rattle.link_conditions.specs.resolution.Rows.{row_of, Tells};
ghost use Rattle.link_conditions.specs.resolution.Unresolved.{instruction_stands};

use crate::resolution::table::{Row, row_at};
use classfile::{ClassFile, Code};
use hierarchy::Hierarchy;
use model::{FieldAccess, Instr, Invocation};
use opcodes::decode_at;

fn is_access_unresolved(
    hierarchy: &Hierarchy,
    file: &ClassFile,
    rows: &[Row],
    access: FieldAccess,
    index: u16,
) -> bool
    requires { Tells hierarchy.now (file_of file.now) rows.now }
    ensures { result ≡ unresolved_instruction hierarchy.now (file_of file.now) (instrs.Field access index) }
{
    let row = row_at(hierarchy, file, rows, index);
    match access {
        FieldAccess::GetStatic => row.get_static,
        FieldAccess::PutStatic => row.put_static,
        FieldAccess::GetField => row.instance_field,
        FieldAccess::PutField => row.instance_field,
    }
}

fn is_call_unresolved(
    hierarchy: &Hierarchy,
    file: &ClassFile,
    rows: &[Row],
    invocation: Invocation,
    index: u16,
) -> bool
    requires { Tells hierarchy.now (file_of file.now) rows.now }
    ensures { result ≡ unresolved_instruction hierarchy.now (file_of file.now) (instrs.Invoke invocation index) }
{
    let row = row_at(hierarchy, file, rows, index);
    match invocation {
        Invocation::Virtual => row.instance_method,
        Invocation::Special => row.instance_method,
        Invocation::Static => row.static_method,
    }
}

/// Whether an instruction doesn't find what it names as it wants it.
pub(crate) fn is_unresolved(
    hierarchy: &Hierarchy,
    file: &ClassFile,
    rows: &[Row],
    instr: Instr,
) -> bool
    requires { Tells hierarchy.now (file_of file.now) rows.now }
    ensures { result ≡ unresolved_instruction hierarchy.now (file_of file.now) instr }
{
    match instr {
        Instr::LoadConstant { index } => row_at(hierarchy, file, rows, index).class,
        Instr::NewReferenceArray { index } => row_at(hierarchy, file, rows, index).class,
        Instr::CheckCast { index } => row_at(hierarchy, file, rows, index).class,
        Instr::InstanceOf { index } => row_at(hierarchy, file, rows, index).class,
        Instr::New { index } => row_at(hierarchy, file, rows, index).new,
        Instr::Field { access, index } => {
            is_access_unresolved(hierarchy, file, rows, access, index)
        }
        Instr::Invoke { invocation, index } => {
            is_call_unresolved(hierarchy, file, rows, invocation, index)
        }
        Instr::InvokeInterface { index, .. } => {
            row_at(hierarchy, file, rows, index).interface_method
        }
        _ => false,
    }
}

/// Whether an instruction begins at an offset that is unresolved.
fn is_unresolved_at(
    hierarchy: &Hierarchy,
    file: &ClassFile,
    rows: &[Row],
    code: &Code,
    pc: usize,
) -> bool
    requires { Tells hierarchy.now (file_of file.now) rows.now }
    ensures { result ≡ instruction_stands hierarchy.now (file_of file.now) (code_of code.now) pc }
{
    match decode_at(&code.code, pc) {
        Some(instr) => is_unresolved(hierarchy, file, rows, instr),
        None => false,
    }
}

/// The first instruction that is unresolved.
pub(crate) fn first_instruction(
    hierarchy: &Hierarchy,
    file: &ClassFile,
    rows: &[Row],
    code: &Code,
    marks: &[bool],
) -> Option<usize>
    requires told { Tells hierarchy.now (file_of file.now) rows.now }
    requires marked { marks.now ≡ starts code.now.code.items }
    ensures { MatchOption result (list_any (instruction_stands hierarchy.now (file_of file.now) (code_of code.now))
        (boundaries code.now.code.items) ≡ false)
        (λ pc. (is_start code.now.code.items pc ≡ true)
        × (instruction_stands hierarchy.now (file_of file.now) (code_of code.now) pc ≡ true)) }
{
    for (pc, is_start) in marks.iter().enumerate() {
        if *is_start && is_unresolved_at(hierarchy, file, rows, code, pc) {
            return Some(pc);
        }
    }
    None
}
