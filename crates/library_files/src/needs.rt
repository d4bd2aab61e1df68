//! The classes that linking looks up for a class file.

ghost use Rattle.std.specs.Prelude.{◌≡◌, List, OnOk, map};
ghost use Rattle.std.specs.List.{flat_map};
ghost use Rattle.std.specs.Option.{option_to_list};
ghost use Rattle.model.specs.Tree.{Entry};
ghost use Rattle.model.specs.Pool.{class_name_at, reference_at, field_at, method_at, interface_method_at};
ghost use Rattle.model.specs.DescriptorParts.{is_array_class, classes_named};
ghost use Rattle.model.specs.Resolution.{member_classes, called_classes, operand_classes};
ghost use Rattle.class_tree.specs.View.{code_of, field_of, file_of, method_of};
ghost use Rattle.library_files.specs.NeededTexts.{Adds};
ghost use Rattle.library_files.specs.Needs.{caught_classes, code_classes, needed_classes};
ghost use Rattle.library_files.specs.Parts.{classes_at, declared_classes, field_classes, instruction_classes, marked_classes, method_classes};

use crate::needed_texts::NeededTexts;
use class_tree::{ClassFile, Code, Constant, Field, Method};
use model::{ExceptionEntry, Instr};
use opcodes::{decode_at, starts};
use std::alloc::{AllocError, Global};

fn is_array_class(name: &[u8]) -> bool
    ensures { result ≡ is_array_class name.now }
{
    matches!(name, [b'[', ..])
}

/// Needs the class of an index.
fn need_class(texts: &mut NeededTexts, file: &ClassFile, index: u16) -> Result<(), AllocError>
    ensures { OnOk result (Adds file.now.pool texts.old texts.new
        (option_to_list (class_name_at file.now.pool index))) }
{
    match file.constant(index) {
        Some(Constant::Class { name }) => texts.need_name(*name),
        _ => Ok(()),
    }
}

/// Needs the class of an index that an instruction names, or that of an array's elements.
fn need_class_operand(
    texts: &mut NeededTexts,
    file: &ClassFile,
    index: u16,
) -> Result<(), AllocError>
    ensures { OnOk result (Adds file.now.pool texts.old texts.new
        (flat_map classes_named (option_to_list (class_name_at file.now.pool index)))) }
{
    match file.constant(index) {
        Some(Constant::Class { name }) => match file.utf8(*name) {
            Some(text) if is_array_class(text) => texts.need_descriptor(*name),
            _ => texts.need_name(*name),
        },
        _ => Ok(()),
    }
}

/// Needs the class that an exception entry catches.
fn need_caught(
    texts: &mut NeededTexts,
    file: &ClassFile,
    entry: ExceptionEntry,
) -> Result<(), AllocError>
    ensures { OnOk result (Adds file.now.pool texts.old texts.new (caught_classes file.now.pool entry)) }
{
    if entry.catch_type == 0 {
        return Ok(());
    }
    match file.class_name(entry.catch_type) {
        Some(name) if !is_array_class(name) => need_class(texts, file, entry.catch_type),
        _ => Ok(()),
    }
}

/// Needs the class of a member, and those of its descriptor.
fn need_member(
    texts: &mut NeededTexts,
    file: &ClassFile,
    class: u16,
    name_and_type: u16,
) -> Result<(), AllocError>
    ensures { OnOk result (Adds file.now.pool texts.old texts.new
        (member_classes (reference_at file.now.pool class name_and_type))) }
{
    let Some(Constant::NameAndType { name, descriptor }) = file.constant(name_and_type) else {
        return Ok(());
    };
    if file.class_name(class).is_none()
        || file.utf8(*name).is_none()
        || file.utf8(*descriptor).is_none()
    {
        return Ok(());
    }
    need_class(texts, file, class)?;
    texts.need_descriptor(*descriptor)
}

/// Needs the class of a member, or that of an array's elements, and those of its descriptor.
fn need_called(
    texts: &mut NeededTexts,
    file: &ClassFile,
    class: u16,
    name_and_type: u16,
) -> Result<(), AllocError>
    ensures { OnOk result (Adds file.now.pool texts.old texts.new
        (called_classes (reference_at file.now.pool class name_and_type))) }
{
    let Some(Constant::NameAndType { name, descriptor }) = file.constant(name_and_type) else {
        return Ok(());
    };
    if file.class_name(class).is_none()
        || file.utf8(*name).is_none()
        || file.utf8(*descriptor).is_none()
    {
        return Ok(());
    }
    need_class_operand(texts, file, class)?;
    texts.need_descriptor(*descriptor)
}

/// Needs the classes of the field of an index.
fn need_field(texts: &mut NeededTexts, file: &ClassFile, index: u16) -> Result<(), AllocError>
    ensures { OnOk result (Adds file.now.pool texts.old texts.new (member_classes (field_at file.now.pool index))) }
{
    match file.constant(index) {
        Some(
            Constant::Field {
                class,
                name_and_type,
            },
        ) => need_member(texts, file, *class, *name_and_type),
        _ => Ok(()),
    }
}

/// Needs the classes of the method of an index, which may be one of an array class.
fn need_method(texts: &mut NeededTexts, file: &ClassFile, index: u16) -> Result<(), AllocError>
    ensures { OnOk result (Adds file.now.pool texts.old texts.new (called_classes (method_at file.now.pool index))) }
{
    match file.constant(index) {
        Some(
            Constant::Method {
                class,
                name_and_type,
            },
        ) => need_called(texts, file, *class, *name_and_type),
        _ => Ok(()),
    }
}

/// Needs the classes of the interface method of an index.
fn need_interface_method(
    texts: &mut NeededTexts,
    file: &ClassFile,
    index: u16,
) -> Result<(), AllocError>
    ensures { OnOk result (Adds file.now.pool texts.old texts.new
        (member_classes (interface_method_at file.now.pool index))) }
{
    match file.constant(index) {
        Some(
            Constant::InterfaceMethod {
                class,
                name_and_type,
            },
        ) => { need_member(texts, file, *class, *name_and_type) }
        _ => Ok(()),
    }
}

/// Needs the classes of the operand of an instruction.
fn need_operand(texts: &mut NeededTexts, file: &ClassFile, instr: Instr) -> Result<(), AllocError>
    ensures { OnOk result (Adds file.now.pool texts.old texts.new (operand_classes file.now.pool instr)) }
{
    match instr {
        Instr::LoadConstant { index } => need_class_operand(texts, file, index),
        Instr::New { index } => need_class_operand(texts, file, index),
        Instr::NewReferenceArray { index } => need_class_operand(texts, file, index),
        Instr::CheckCast { index } => need_class_operand(texts, file, index),
        Instr::InstanceOf { index } => need_class_operand(texts, file, index),
        Instr::Field { index, .. } => need_field(texts, file, index),
        Instr::Invoke { index, .. } => need_method(texts, file, index),
        Instr::InvokeInterface { index, .. } => need_interface_method(texts, file, index),
        _ => Ok(()),
    }
}

/// Needs the classes of the operand of the instruction at an offset, if one begins there.
fn need_instruction(
    texts: &mut NeededTexts,
    file: &ClassFile,
    code: &[u8],
    pc: usize,
    is_start: bool,
) -> Result<(), AllocError>
    ensures { OnOk result (Adds file.now.pool texts.old texts.new
        (instruction_classes file.now.pool code.now pc is_start)) }
{
    if !is_start {
        return Ok(());
    }
    match decode_at(code, pc) {
        Some(instr) => need_operand(texts, file, instr),
        None => Ok(()),
    }
}

/// Needs the classes of the operands of the instructions at marked offsets.
fn need_marked(
    texts: &mut NeededTexts,
    file: &ClassFile,
    code: &[u8],
    marks: &[bool],
) -> Result<(), AllocError>
    ensures { OnOk result (Adds file.now.pool texts.old texts.new
        (marked_classes file.now.pool code.now 0 marks.now)) }
{
    for (pc, is_start) in marks.iter().enumerate() {
        need_instruction(texts, file, code, pc, *is_start)?;
    }
    Ok(())
}

/// Needs the classes that exception entries catch.
fn need_all_caught(
    texts: &mut NeededTexts,
    file: &ClassFile,
    entries: &[ExceptionEntry],
) -> Result<(), AllocError>
    ensures { OnOk result (Adds file.now.pool texts.old texts.new
        (flat_map (caught_classes file.now.pool) entries.now)) }
{
    for entry in entries {
        need_caught(texts, file, *entry)?;
    }
    Ok(())
}

/// Needs the classes of a code.
fn need_code(
    alloc: Global,
    texts: &mut NeededTexts,
    file: &ClassFile,
    code: &Code,
) -> Result<(), AllocError>
    ensures { OnOk result (Adds file.now.pool texts.old texts.new (code_classes file.now.pool (code_of code.now))) }
{
    let marks = starts(alloc, &code.code)?;
    need_marked(texts, file, &code.code, &marks)?;
    need_all_caught(texts, file, &code.exceptions)
}

/// Needs the classes of the code of a method.
fn need_method_code(
    alloc: Global,
    texts: &mut NeededTexts,
    file: &ClassFile,
    method: &Method,
) -> Result<(), AllocError>
    ensures { OnOk result (Adds file.now.pool texts.old texts.new
        (method_classes file.now.pool (method_of method.now))) }
{
    match method.code() {
        Some(code) => need_code(alloc, texts, file, code),
        None => Ok(()),
    }
}

/// Needs the classes of the codes of methods.
fn need_codes(
    alloc: Global,
    texts: &mut NeededTexts,
    file: &ClassFile,
    methods: &[Method],
) -> Result<(), AllocError>
    ensures { OnOk result (Adds file.now.pool texts.old texts.new
        (flat_map (method_classes file.now.pool) (map method_of methods.now))) }
{
    for method in methods {
        need_method_code(alloc, texts, file, method)?;
    }
    Ok(())
}

/// Needs the classes of indices.
fn need_interfaces(
    texts: &mut NeededTexts,
    file: &ClassFile,
    indices: &[u16],
) -> Result<(), AllocError>
    ensures { OnOk result (Adds file.now.pool texts.old texts.new
        (flat_map (classes_at file.now.pool) indices.now)) }
{
    for index in indices {
        need_class(texts, file, *index)?;
    }
    Ok(())
}

/// Needs the classes of the descriptors of fields.
fn need_fields(texts: &mut NeededTexts, fields: &[Field]) -> Result<(), AllocError>
    ensures { OnOk result ((pool : List Entry) → Adds pool texts.old texts.new
        (flat_map (field_classes pool) (map field_of fields.now))) }
{
    for field in fields {
        texts.need_descriptor(field.descriptor)?;
    }
    Ok(())
}

/// Needs the classes of the descriptors of methods.
fn need_methods(texts: &mut NeededTexts, methods: &[Method]) -> Result<(), AllocError>
    ensures { OnOk result ((pool : List Entry) → Adds pool texts.old texts.new
        (flat_map (declared_classes pool) (map method_of methods.now))) }
{
    for method in methods {
        texts.need_descriptor(method.descriptor)?;
    }
    Ok(())
}

/// Needs all that linking looks up for a class file.
pub(crate) fn need_file(
    alloc: Global,
    texts: &mut NeededTexts,
    file: &ClassFile,
) -> Result<(), AllocError>
    ensures { OnOk result (Adds file.now.pool texts.old texts.new (needed_classes (file_of file.now))) }
{
    need_class(texts, file, file.super_class)?;
    need_interfaces(texts, file, &file.interfaces)?;
    need_fields(texts, &file.fields)?;
    need_methods(texts, &file.methods)?;
    need_codes(alloc, texts, file, &file.methods)
}
