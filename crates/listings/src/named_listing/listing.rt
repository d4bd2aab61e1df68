//! The listing, line by line.

use crate::disasm::{bare_method_line, catch_line, class_line, field_line, method_line};
use crate::named_listing::debug::source_of;
use crate::named_listing::instruction::{push_instruction, without_end};
use crate::named_listing::text::Comment;
use crate::printed_names::push_printed;
use classfile::access_flags::{FINAL, has};
use classfile::{ClassFile, Code, Field, Method, MethodAttribute};
use std::alloc::{AllocError, Global};

/// ACC_VOLATILE (JVMS table 4.5-A; JLS 8.3.1.4).
const VOLATILE: u16 = 0x0040;

/// The listings of class files, one behind the other.
pub fn named_listings(alloc: Global, files: &[ClassFile]) -> Result<Vec<u8>, AllocError> {
    let mut text = Vec::new(alloc);
    for file in files {
        text.extend_from_slice(&named_listing(alloc, file)?)?;
    }
    Ok(text)
}

/// The listing of a class file, with ` // ` behind a line where more is known: behind the class its source file;
/// behind a field `volatile` and `final`; behind an instruction the line that begins there, the name of its local variable, and the constant that it loads.
/// An instruction that this machine leaves out is told by its mnemonic (JVMS 6.5), over its whole length.
fn named_listing(alloc: Global, file: &ClassFile) -> Result<Vec<u8>, AllocError> {
    let mut text = Vec::new(alloc);
    let line = class_line(alloc, file)?;
    text.extend_from_slice(without_end(&line))?;
    if let Some(source) = source_of(file) {
        push_printed(Comment::new(&mut text).part()?, source)?;
    }
    text.push(b'\n')?;
    for field in &file.fields {
        push_field(alloc, &mut text, file, field)?;
    }
    for method in &file.methods {
        push_method(alloc, &mut text, file, method)?;
    }
    Ok(text)
}

/// Adds the line of a field, with `volatile` and `final` behind it where its flags say so (JVMS 4.5).
fn push_field(
    alloc: Global,
    text: &mut Vec<u8>,
    file: &ClassFile,
    field: &Field,
) -> Result<(), AllocError> {
    let line = field_line(alloc, file, field)?;
    text.extend_from_slice(without_end(&line))?;
    let mut comment = Comment::new(text);
    if has(field.flags, VOLATILE) {
        comment.part()?.extend_from_slice(b"volatile")?;
    }
    if has(field.flags, FINAL) {
        comment.part()?.extend_from_slice(b"final")?;
    }
    text.push(b'\n')?;
    Ok(())
}

/// The code that a method has.
fn code_of(method: &Method) -> Option<&Code> {
    for attribute in &method.attributes {
        if let MethodAttribute::Code { name: _, code } = attribute {
            return Some(code);
        }
    }
    None
}

fn push_method(
    alloc: Global,
    text: &mut Vec<u8>,
    file: &ClassFile,
    method: &Method,
) -> Result<(), AllocError> {
    let Some(code) = code_of(method) else {
        return text.extend_from_slice(&bare_method_line(alloc, file, method)?);
    };
    text.extend_from_slice(&method_line(alloc, file, method, code)?)?;
    push_instructions(alloc, text, file, code)?;
    for entry in &code.exceptions {
        text.extend_from_slice(&catch_line(alloc, file, *entry)?)?;
    }
    Ok(())
}

/// Adds a line for each instruction, one behind the other.
fn push_instructions(
    alloc: Global,
    text: &mut Vec<u8>,
    file: &ClassFile,
    code: &Code,
) -> Result<(), AllocError> {
    let mut next = 0usize;
    for pc in 0..code.code.len() {
        if pc == next {
            let length = push_instruction(alloc, text, file, code, pc)?;
            next = pc.saturating_add(length);
        }
    }
    Ok(())
}
