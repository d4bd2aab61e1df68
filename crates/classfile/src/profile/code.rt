//! The code of a method: max_locals, its instructions, its exception table.

ghost use Rattle.std.specs.Prelude.{◌≡◌, IfOk, false, slice_index_or};
ghost use Rattle.model.specs.InstructionStarts.{starts};
ghost use Rattle.classfile.specs.View.{code_of, method_of, file_of};
ghost use Rattle.classfile.specs.declared.profile.fault.Spot.TheVariants.{Instruction};
ghost use Rattle.classfile.specs.profile.Descriptions.{rows_of};
ghost use Rattle.classfile.specs.profile.Faults.{row_of, FindsInCode, FindsEntry, FindsField};

use crate::profile::described::Described;
use crate::profile::fault::{ExceptionField, Flaw, MethodFault, Spot};
use crate::profile::instruction::{end_of_decoding, first_flaw, missing_flaw};
use crate::profile::method::entry_slots;
use crate::{ClassFile, Code, Method};
use model::ExceptionEntry;
use opcodes::starts;
use std::alloc::{AllocError, Global};

/// Whether an offset is an instruction boundary.
fn is_start(marks: &[bool], pc: u16) -> bool
    ensures { result ≡ slice_index_or marks.now pc false }
{
    marks.get(pc as usize).copied().unwrap_or(false)
}

/// What is wrong with an exception entry: an empty range, a range that begins or ends off an instruction boundary,
/// where it may end with the code, or such a handler (JVMS 4.7.3).
fn entry_fault(code: &Code, marks: &[bool], entry: ExceptionEntry) -> Option<ExceptionField>
    requires { marks.now ≡ starts code.now.code.items }
    ensures { FindsField (code_of code.now) entry result }
{
    if entry.end <= entry.start || !is_start(marks, entry.start) {
        Some(ExceptionField::StartPc)
    } else if !is_start(marks, entry.end) && entry.end as usize != code.code.len() {
        Some(ExceptionField::EndPc)
    } else if !is_start(marks, entry.handler) {
        Some(ExceptionField::HandlerPc)
    } else {
        None
    }
}

/// The first exception entry that is malformed, and the field at which it is.
fn first_exception(code: &Code, marks: &[bool]) -> Option<(usize, ExceptionField)>
    requires { marks.now ≡ starts code.now.code.items }
    ensures { FindsEntry (code_of code.now) result }
{
    for (place, entry) in code.exceptions.iter().enumerate() {
        if let Some(field) = entry_fault(code, marks, *entry) {
            return Some((place, field));
        }
    }
    None
}

fn at_instruction(pc: usize, flaw: Flaw) -> MethodFault
    ensures { result ≡ record { flaw = flaw; spot = Instruction pc } }
{
    MethodFault {
        flaw,
        spot: Spot::Instruction { pc },
    }
}

/// The first fault in the code of a method.
pub(crate) fn first_in_code(
    alloc: Global,
    file: &ClassFile,
    rows: &[Described],
    aside: &[bool],
    method: &Method,
    code: &Code,
) -> Result<Option<MethodFault>, AllocError>
    requires { rows.now ≡ rows_of file.now.pool }
    ensures { IfOk result (λ found.
        FindsInCode (row_of aside.now) (file_of file.now) (method_of method.now) (code_of code.now) found) }
{
    if code.max_locals < entry_slots(file, rows, method) {
        return Ok(Some(MethodFault {
            flaw: Flaw::MalformedCode,
            spot: Spot::MaxLocals,
        }));
    }
    let marks = starts(alloc, &code.code)?;
    if let Some(pc) = end_of_decoding(code, &marks) {
        return Ok(Some(at_instruction(pc, missing_flaw(code, pc))));
    }
    if let Some((pc, flaw)) = first_flaw(file, rows, aside, code, &marks) {
        return Ok(Some(at_instruction(pc, flaw)));
    }
    if let Some((entry, field)) = first_exception(code, &marks) {
        return Ok(Some(MethodFault {
            flaw: Flaw::MalformedCode,
            spot: Spot::Exception { entry, field },
        }));
    }
    Ok(None)
}
