//! The lines of the class, of fields and of methods.

ghost use Rattle.std.specs.Prelude.{◌≡◌, ◌++◌, IfOk, OnOk};
ghost use Rattle.std.specs.List.{flat_map};
ghost use Rattle.model.specs.Listing.{catch_line, caught, class_line, class_word, field_line, flags_word, implements_words, kind_word, method_head, operand, sizes};
ghost use Rattle.model.specs.Report.{line, number};
ghost use Rattle.classfile.specs.View.{code_of, field_of, file_of, method_of};

use crate::disasm::names::{push_class, push_utf8};
use crate::disasm::numbers::{push_hex_short, push_number};
use class_tree::access_flags::INTERFACE;
use classfile::{ClassFile, Code, Field, Method};
use model::ExceptionEntry;
use std::alloc::{AllocError, Global};

fn push_flags(text: &mut Vec<u8>, flags: u16) -> Result<(), AllocError>
    ensures { OnOk result (text.new.items ≡ text.old.items ++ flags_word flags) }
{
    text.extend_from_slice(b" flags ")?;
    push_hex_short(text, flags)
}

fn kind_word(flags: u16) -> &'static [u8]
    ensures { result.now ≡ kind_word flags }
{
    if flags / INTERFACE % 2 == 1 {
        b"interface"
    } else {
        b"class"
    }
}

/// The names of classes, each behind a space.
fn push_classes(text: &mut Vec<u8>, file: &ClassFile, classes: &[u16]) -> Result<(), AllocError>
    ensures { OnOk result (text.new.items
        ≡ text.old.items ++ flat_map (λ i. operand (class_word file.now.pool i)) classes.now) }
{
    'classes: for index in classes {
        push_class(text, file, *index)?;
    }
    Ok(())
}

fn push_implements(
    text: &mut Vec<u8>,
    file: &ClassFile,
    interfaces: &[u16],
) -> Result<(), AllocError>
    ensures { OnOk result (text.new.items ≡ text.old.items ++ implements_words file.now.pool interfaces.now) }
{
    if interfaces.is_empty() {
        return Ok(());
    }
    text.extend_from_slice(b" implements")?;
    push_classes(text, file, interfaces)
}

/// The line of the class itself.
pub fn class_line(alloc: Global, file: &ClassFile) -> Result<Vec<u8>, AllocError>
    ensures { IfOk result (λ text. text.items ≡ class_line (file_of file.now)) }
{
    let mut text = Vec::new(alloc);
    text.extend_from_slice(kind_word(file.flags))?;
    push_class(&mut text, file, file.this_class)?;
    text.extend_from_slice(b" extends")?;
    push_class(&mut text, file, file.super_class)?;
    push_implements(&mut text, file, &file.interfaces)?;
    text.push(b'\n')?;
    Ok(text)
}

pub fn field_line(alloc: Global, file: &ClassFile, field: &Field) -> Result<Vec<u8>, AllocError>
    ensures { IfOk result (λ text. text.items ≡ field_line file.now.pool (field_of field.now)) }
{
    let mut text = Vec::new(alloc);
    text.extend_from_slice(b"field ")?;
    push_utf8(&mut text, file, field.name)?;
    text.push(b' ')?;
    push_utf8(&mut text, file, field.descriptor)?;
    push_flags(&mut text, field.flags)?;
    text.push(b'\n')?;
    Ok(text)
}

/// The line of a method, up to what is said of its code.
fn push_method(text: &mut Vec<u8>, file: &ClassFile, method: &Method) -> Result<(), AllocError>
    ensures { OnOk result (text.new.items ≡ text.old.items ++ method_head file.now.pool (method_of method.now)) }
{
    text.extend_from_slice(b"method ")?;
    push_utf8(text, file, method.name)?;
    push_utf8(text, file, method.descriptor)?;
    push_flags(text, method.flags)
}

fn push_sizes(text: &mut Vec<u8>, code: &Code) -> Result<(), AllocError>
    ensures { OnOk result (text.new.items ≡ text.old.items ++ sizes (code_of code.now)) }
{
    text.extend_from_slice(b" stack ")?;
    push_number(text, code.max_stack)?;
    text.extend_from_slice(b" locals ")?;
    push_number(text, code.max_locals)
}

/// The line of a method without code.
pub fn bare_method_line(
    alloc: Global,
    file: &ClassFile,
    method: &Method,
) -> Result<Vec<u8>, AllocError>
    ensures { IfOk result (λ text. text.items ≡ line (method_head file.now.pool (method_of method.now))) }
{
    let mut text = Vec::new(alloc);
    push_method(&mut text, file, method)?;
    text.push(b'\n')?;
    Ok(text)
}

/// The line of a method with code.
pub fn method_line(
    alloc: Global,
    file: &ClassFile,
    method: &Method,
    code: &Code,
) -> Result<Vec<u8>, AllocError>
    ensures { IfOk result (λ text.
        text.items ≡ line (method_head file.now.pool (method_of method.now) ++ sizes (code_of code.now))) }
{
    let mut text = Vec::new(alloc);
    push_method(&mut text, file, method)?;
    push_sizes(&mut text, code)?;
    text.push(b'\n')?;
    Ok(text)
}

/// The class that a handler takes, behind a space.
fn push_caught(text: &mut Vec<u8>, file: &ClassFile, catch_type: u16) -> Result<(), AllocError>
    ensures { OnOk result (text.new.items ≡ text.old.items ++ operand (caught file.now.pool catch_type)) }
{
    if catch_type == 0 {
        text.extend_from_slice(b" any")?;
        return Ok(());
    }
    push_class(text, file, catch_type)
}

/// The line of an entry of an exception table.
pub fn catch_line(
    alloc: Global,
    file: &ClassFile,
    entry: ExceptionEntry,
) -> Result<Vec<u8>, AllocError>
    ensures { IfOk result (λ text. text.items ≡ catch_line file.now.pool entry) }
{
    let mut text = Vec::new(alloc);
    text.extend_from_slice(b"catch ")?;
    push_number(&mut text, entry.start)?;
    text.push(b' ')?;
    push_number(&mut text, entry.end)?;
    text.push(b' ')?;
    push_number(&mut text, entry.handler)?;
    push_caught(&mut text, file, entry.catch_type)?;
    text.push(b'\n')?;
    Ok(text)
}
