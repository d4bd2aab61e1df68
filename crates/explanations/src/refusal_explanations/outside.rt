//! What of a class file this machine leaves out.

use crate::refusal_explanations::method::code_called;
use advice::words::{Line, say_instruction};
use classfile::access_flags::{FINAL, has};
use classfile::profile::{Place, first_fault};
use classfile::{ClassFile, class_name};
use std::alloc::{AllocError, Global};

/// Adds the instruction at an offset of a method, and where it stands.
pub(crate) fn say_place(
    line: &mut Line,
    file: &ClassFile,
    method: &[u8],
    pc: usize,
) -> Result<(), AllocError> {
    match code_called(file, method) {
        Some(code) => say_instruction(line, file, &code.code, pc)?,
        None => line.say("an instruction")?,
    }
    line.say(" at offset ")?;
    line.number(pc)?;
    line.say(" of ")?;
    line.name(method)
}

/// ACC_VOLATILE (JVMS table 4.5-A).
const VOLATILE: u16 = 0x0040;

/// Adds `volatile ` and `final `, of a field with these flags (JVMS 4.5; JLS 8.3.1).
fn say_modifiers(line: &mut Line, flags: u16) -> Result<(), AllocError> {
    if has(flags, VOLATILE) {
        line.say("volatile ")?;
    }
    if has(flags, FINAL) {
        line.say("final ")?;
    }
    Ok(())
}

/// Adds the first field that is left out, or the class where it is none.
fn say_field_or_class(line: &mut Line, alloc: Global, file: &ClassFile) -> Result<(), AllocError> {
    if let Some(fault) = first_fault(alloc, file, &[])? {
        if let Place::Field { field } = fault.place {
            if let Some(field) = file.fields.get(field) {
                line.say("the ")?;
                say_modifiers(line, field.flags)?;
                line.say("field ")?;
                line.name(file.pool.text(field.name))?;
                line.say(":")?;
                return line.name(file.pool.text(field.descriptor));
            }
        }
    }
    line.say("the class ")?;
    line.name(class_name(file))
}

/// Adds what is left out.
pub(crate) fn say_outside(
    line: &mut Line,
    alloc: Global,
    file: &ClassFile,
    method: Option<&[u8]>,
    offset: Option<usize>,
) -> Result<(), AllocError> {
    match (method, offset) {
        (Some(method), Some(pc)) => say_place(line, file, method, pc)?,
        (Some(method), None) => {
            line.say("the method ")?;
            line.name(method)?;
        }
        _ => say_field_or_class(line, alloc, file)?,
    }
    line.say(" is outside of what this machine takes")
}
