//! What is wrong with a file that is no class file.

use advice::words::{Line, say_instruction, say_version, words_of};
use classfile::{Cause, ClassFile, decode};
use std::alloc::{AllocError, Global};

/// Adds the instruction at an offset of the file, and its method.
fn say_code(line: &mut Line, alloc: Global, bytes: &[u8], offset: usize) -> Result<(), AllocError> {
    match decode(alloc, bytes) {
        Ok(file) => say_code_of(line, &file, offset),
        Err(_) => Ok(()),
    }
}

/// Adds the instruction at an offset of the bytes of a class file, if that is within the code of a method.
fn say_code_of(line: &mut Line, file: &ClassFile, offset: usize) -> Result<(), AllocError> {
    for (number, method) in file.methods.iter().enumerate() {
        let begin = file.code_offset(number).saturating_add(8);
        if let Some(code) = method.code() {
            if begin <= offset && offset - begin < code.code.len() {
                line.say(": ")?;
                say_instruction(line, file, &code.code, offset - begin)?;
                line.say(" at offset ")?;
                line.number(offset - begin)?;
                line.say(" of ")?;
                line.name(file.pool.text(method.name))?;
                line.name(file.pool.text(method.descriptor))?;
            }
        }
    }
    Ok(())
}

/// Adds what is wrong with the bytes of a file whose name stands before it.
pub(crate) fn say_malformed(
    line: &mut Line,
    alloc: Global,
    bytes: &[u8],
    cause: Cause,
    offset: Option<usize>,
) -> Result<(), AllocError> {
    if cause == Cause::Version {
        return say_version(line, bytes);
    }
    line.say(": ")?;
    line.say(words_of(cause))?;
    match (cause, offset) {
        (Cause::Code, Some(offset)) => say_code(line, alloc, bytes, offset),
        _ => Ok(()),
    }
}
