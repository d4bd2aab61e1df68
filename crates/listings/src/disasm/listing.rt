//! The listing, line by line.

ghost use Rattle.std.specs.Prelude.{◌≡◌, ◌<◌, ◌++◌, ℕ, List, [], false, slice_index_or, IfOk, length, map, option_map, if◌then◌else◌};
ghost use Rattle.std.specs.List.{flat_map};
ghost use Rattle.model.specs.Classes.{code_in};
ghost use Rattle.model.specs.Devices.{Counts, Writes};
ghost use Rattle.model.specs.Listing.{catch_line, code_lines, field_line, instruction_line, instruction_lines, listing, method_lines};
ghost use Rattle.classfile.specs.View.{code_of, field_of, file_of, method_of, method_part_of};

use crate::disasm::instruction::instruction_line;
use crate::disasm::member::{bare_method_line, catch_line, class_line, field_line, method_line};
use classfile::{ClassFile, Code, Field, Method, MethodAttribute};
use model::{DeviceFault, ExceptionEntry, Sink};
use opcodes::starts;
use std::alloc::{AllocError, Global};

/// Writes a line, if there was memory for it.
fn write_line<W: Sink>(line: Result<Vec<u8>, AllocError>, writer: &mut W) -> Result<(), DeviceFault>
    ensures written { (text : List ℕ) → IfOk line (λ l. l.items ≡ text)
        → Writes result text (W.contents writer.old) (W.contents writer.new) }
    ensures counted { Counts result (W.failures writer.old) (W.failures writer.new) }
{
    match line {
        Ok(text) => writer.write_all(&text),
        Err(AllocError) => Err(DeviceFault::Memory),
    }
}

/// Writes the line of what begins at `pc`, if an instruction begins there.
fn list_at<W: Sink>(
    alloc: Global,
    file: &ClassFile,
    code: &[u8],
    pc: usize,
    begins: bool,
    writer: &mut W,
) -> Result<(), DeviceFault>
    requires { pc < length code.now }
    ensures written { Writes result (if begins then instruction_line file.now.pool code.now pc else [])
        (W.contents writer.old)
        (W.contents writer.new) }
    ensures counted { Counts result (W.failures writer.old) (W.failures writer.new) }
{
    if !begins {
        return Ok(());
    }
    write_line(instruction_line(alloc, file, code, pc), writer)
}

/// Whether an offset is an instruction boundary, by the marks of all offsets.
fn is_marked(starts: &[bool], pc: usize) -> bool
    ensures { result ≡ slice_index_or starts.now pc false }
{
    starts.get(pc).copied().unwrap_or(false)
}

fn list_instructions<W: Sink>(
    alloc: Global,
    file: &ClassFile,
    code: &[u8],
    writer: &mut W,
) -> Result<(), DeviceFault>
    ensures written { Writes result (instruction_lines file.now.pool code.now) (W.contents writer.old)
        (W.contents writer.new) }
    ensures counted { Counts result (W.failures writer.old) (W.failures writer.new) }
{
    let starts = starts(alloc, code)?;
    'offsets: for pc in 0..code.len() {
        list_at(alloc, file, code, pc, is_marked(&starts, pc), writer)?;
    }
    Ok(())
}

fn list_handlers<W: Sink>(
    alloc: Global,
    file: &ClassFile,
    entries: &[ExceptionEntry],
    writer: &mut W,
) -> Result<(), DeviceFault>
    ensures written { Writes result (flat_map (catch_line file.now.pool) entries.now) (W.contents writer.old)
        (W.contents writer.new) }
    ensures counted { Counts result (W.failures writer.old) (W.failures writer.new) }
{
    'entries: for entry in entries {
        write_line(catch_line(alloc, file, *entry), writer)?;
    }
    Ok(())
}

fn list_code<W: Sink>(
    alloc: Global,
    file: &ClassFile,
    code: &Code,
    writer: &mut W,
) -> Result<(), DeviceFault>
    ensures written { Writes result (code_lines file.now.pool (code_of code.now)) (W.contents writer.old)
        (W.contents writer.new) }
    ensures counted { Counts result (W.failures writer.old) (W.failures writer.new) }
{
    list_instructions(alloc, file, &code.code, writer)?;
    list_handlers(alloc, file, &code.exceptions, writer)
}

/// The code that a method has.
fn code_in(method: &Method) -> Option<&Code>
    ensures { option_map (λ c. code_of c.now) result ≡ code_in (map method_part_of method.now.attributes.items) }
{
    let mut rest = method.attributes.as_slice();
    'attributes: while let [attribute, others @ ..] = rest {
        if let MethodAttribute::Code { name: _, code } = attribute {
            return Some(code);
        }
        rest = others;
    }
    None
}

fn list_method<W: Sink>(
    alloc: Global,
    file: &ClassFile,
    method: &Method,
    writer: &mut W,
) -> Result<(), DeviceFault>
    ensures written { Writes result (method_lines file.now.pool (method_of method.now)) (W.contents writer.old)
        (W.contents writer.new) }
    ensures counted { Counts result (W.failures writer.old) (W.failures writer.new) }
{
    let Some(code) = code_in(method) else {
        return write_line(bare_method_line(alloc, file, method), writer);
    };
    write_line(method_line(alloc, file, method, code), writer)?;
    list_code(alloc, file, code, writer)
}

fn list_methods<W: Sink>(
    alloc: Global,
    file: &ClassFile,
    methods: &[Method],
    writer: &mut W,
) -> Result<(), DeviceFault>
    ensures written { Writes result (flat_map (λ m. method_lines file.now.pool (method_of m)) methods.now)
        (W.contents writer.old)
        (W.contents writer.new) }
    ensures counted { Counts result (W.failures writer.old) (W.failures writer.new) }
{
    'methods: for method in methods {
        list_method(alloc, file, method, writer)?;
    }
    Ok(())
}

fn list_fields<W: Sink>(
    alloc: Global,
    file: &ClassFile,
    fields: &[Field],
    writer: &mut W,
) -> Result<(), DeviceFault>
    ensures written { Writes result (flat_map (λ f. field_line file.now.pool (field_of f)) fields.now)
        (W.contents writer.old)
        (W.contents writer.new) }
    ensures counted { Counts result (W.failures writer.old) (W.failures writer.new) }
{
    'fields: for field in fields {
        write_line(field_line(alloc, file, field), writer)?;
    }
    Ok(())
}

/// Writes the listing of a class file: a line for the class; a line for each field; and for each method a line, with a
/// line for each instruction of its code and for each entry of its exception table. An error leaves a front of the
/// listing written. `Device` is answered where the writer failed, `Memory` for want of memory.
pub fn list<W: Sink>(alloc: Global, file: &ClassFile, writer: &mut W) -> Result<(), DeviceFault>
    ensures written { Writes result (listing (file_of file.now)) (W.contents writer.old) (W.contents writer.new) }
    ensures counted { Counts result (W.failures writer.old) (W.failures writer.new) }
{
    write_line(class_line(alloc, file), writer)?;
    list_fields(alloc, file, &file.fields, writer)?;
    list_methods(alloc, file, &file.methods, writer)
}
