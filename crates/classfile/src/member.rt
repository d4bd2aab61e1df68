//! Fields and methods (JVMS 4.5, 4.6), and their attributes (JVMS 4.7).

ghost use Rattle.std.specs.Prelude.{◌≡◌, ◌<◌, ◌+◌, ◌&&◌, ℕ, List, length, map, codes};
ghost use Rattle.model.specs.declared.class_file.ExceptionEntry.{ExceptionEntry};
ghost use Rattle.model.specs.Tree.{Entry, SkippedTree, CodeTree, FieldPart, FieldTree, MethodPart, MethodTree};
ghost use Rattle.model.specs.Spelling.{names, is_code, is_static};
ghost use Rattle.constant_pool.specs.reading.Reading.{Gives, sized_at, whole_at, table_at, filled, filled_at, moved};
ghost use Rattle.class_tree.specs.View.{skipped_of, code_of, field_part_of, method_part_of, field_of, method_of};
ghost use Rattle.classfile.specs.FileReading.{is_static_field, attribute_at, skipped_at, exception_at, code_bytes_at, code_at, constant_at, field_part_at, field_at, method_part_at, method_at};

use crate::part::{Owner, Part, read_table};
use class_tree::{Attribute, Code, Field, FieldAttribute, Method, MethodAttribute};
use constant_pool::reading::{Cause, Reader, Stop};
use constant_pool::{Constant, Pool};
use model::ExceptionEntry;
use std::alloc::Global;

impl Part for ExceptionEntry {
    ghost Tree = { ExceptionEntry };

    ghost view = { λ e. e };

    ghost read_at = { λ _ _ i. exception_at i };

    #[tactic(auto, unfolding(crate::specs::FileReading::exception_at))]
    fn read(
        _alloc: Global,
        _pool: &Pool,
        _owner: Owner,
        reader: &mut Reader<'_>,
    ) -> Result<Self, Stop> {
        Ok(ExceptionEntry {
            start: reader.u2()?,
            end: reader.u2()?,
            handler: reader.u2()?,
            catch_type: reader.u2()?,
        })
    }
}

/// A length of four bytes, and so many bytes.
#[tactic(auto, unfolding(constant_pool::specs::reading::Reading::sized_at))]
fn read_sized(alloc: Global, reader: &mut Reader<'_>) -> Result<Vec<u8>, Stop>
    ensures { Gives (λ x. (x.items, reader.new)) result (sized_at reader.old) }
{
    let len = reader.u4()?;
    let bytes = reader.bytes(len as usize)?;
    Ok(Vec::from_slice(alloc, bytes)?)
}

/// The bytes of an attribute. Inside of a Code they fit, or their length does not.
#[tactic(auto, unfolding(constant_pool::specs::reading::Reading::whole_at))]
fn read_attribute(alloc: Global, owner: Owner, reader: &mut Reader<'_>) -> Result<Vec<u8>, Stop>
    ensures { Gives (λ x. (x.items, reader.new)) result (attribute_at owner reader.old) }
{
    let start = reader.at();
    match (owner, read_sized(alloc, reader)) {
        (_, Ok(bytes)) => Ok(bytes),
        (Owner::Code, Err(stop)) => Err(stop.moved(start)),
        (_, Err(stop)) => Err(stop),
    }
}

impl Part for Attribute {
    ghost Tree = { SkippedTree };

    ghost view = { λ a. skipped_of a };

    ghost read_at = { λ _ owner i. skipped_at owner i };

    #[tactic(auto, unfolding(crate::specs::FileReading::skipped_at))]
    fn read(
        alloc: Global,
        _pool: &Pool,
        owner: Owner,
        reader: &mut Reader<'_>,
    ) -> Result<Self, Stop> {
        Ok(Attribute {
            name: reader.u2()?,
            bytes: read_attribute(alloc, owner, reader)?,
        })
    }
}

/// The bytes of a code.
#[tactic(auto, unfolding(crate::specs::FileReading::code_bytes_at))]
fn read_code_bytes(alloc: Global, reader: &mut Reader<'_>) -> Result<Vec<u8>, Stop>
    ensures { Gives (λ x. (x.items, reader.new)) result (code_bytes_at reader.old) }
{
    let fault = reader.fault(Cause::Attribute);
    let len = reader.u4()?;
    if 0 < len && len < 65536 {
        let code = reader.bytes(len as usize)?;
        Ok(Vec::from_slice(alloc, code)?)
    } else {
        Err(fault)
    }
}

/// The bytes of a code, whose length is at fault where they do not fit.
#[tactic(auto, unfolding(constant_pool::specs::reading::Reading::whole_at))]
fn read_whole_code_bytes(alloc: Global, reader: &mut Reader<'_>) -> Result<Vec<u8>, Stop>
    ensures { Gives (λ x. (x.items, reader.new)) result (whole_at code_bytes_at reader.old) }
{
    let start = reader.at();
    match read_code_bytes(alloc, reader) {
        Ok(code) => Ok(code),
        Err(stop) => Err(stop.moved(start)),
    }
}

/// The exception entries of a code, whose count is at fault where they do not fit.
#[tactic(auto, unfolding(constant_pool::specs::reading::Reading::whole_at))]
fn read_whole_exceptions(
    alloc: Global,
    pool: &Pool,
    reader: &mut Reader<'_>,
) -> Result<Vec<ExceptionEntry>, Stop>
    ensures { Gives (λ x. (x.items, reader.new)) result (whole_at (table_at exception_at) reader.old) }
{
    let start = reader.at();
    match read_table::<ExceptionEntry>(alloc, pool, Owner::Code, reader) {
        Ok(entries) => Ok(entries),
        Err(stop) => Err(stop.moved(start)),
    }
}

#[tactic(auto, unfolding(crate::specs::FileReading::code_at))]
fn read_code(alloc: Global, pool: &Pool, reader: &mut Reader<'_>) -> Result<Code, Stop>
    ensures { Gives (λ x. (code_of x, reader.new)) result (code_at reader.old) }
{
    Ok(Code {
        max_stack: reader.u2()?,
        max_locals: reader.u2()?,
        code: read_whole_code_bytes(alloc, reader)?,
        exceptions: read_whole_exceptions(alloc, pool, reader)?,
        attributes: read_table(alloc, pool, Owner::Code, reader)?,
    })
}

/// A code that fills its attribute.
#[tactic(auto, unfolding(constant_pool::specs::reading::Reading::filled_at, constant_pool::specs::reading::Reading::filled))]
fn read_filled_code(alloc: Global, pool: &Pool, reader: &mut Reader<'_>) -> Result<Code, Stop>
    ensures { Gives (λ x. (code_of x, reader.new)) result (filled_at code_at reader.old) }
{
    let fault = reader.fault(Cause::Attribute);
    let len = reader.u4()?;
    let mut inner = reader.inner(len as usize)?;
    match read_code(alloc, pool, &mut inner) {
        Ok(code) if inner.is_at_end() => Ok(code),
        Ok(_) => Err(fault),
        Err(stop) => Err(stop.inside()),
    }
}

/// Whether the entry of an index is the Utf8 of this text.
fn names(text: &[u8], pool: &Pool, index: u16) -> bool
    requires { 0 < length text.now }
    ensures { result ≡ names text.now pool.now index }
{
    match pool.constant(index) {
        Some(Constant::Utf8(name)) => name.as_slice() == text,
        _ => false,
    }
}

impl Part for MethodAttribute {
    ghost Tree = { MethodPart };

    ghost view = { λ a. method_part_of a };

    ghost read_at = { λ pool _ i. method_part_at pool i };

    #[tactic(auto, unfolding(crate::specs::FileReading::method_part_at))]
    fn read(
        alloc: Global,
        pool: &Pool,
        _owner: Owner,
        reader: &mut Reader<'_>,
    ) -> Result<Self, Stop> {
        let name = reader.u2()?;
        if names(b"Code", pool, name) {
            let code = read_filled_code(alloc, pool, reader)?;
            let code = Box::new(alloc, code)?;
            Ok(MethodAttribute::Code { name, code })
        } else {
            let bytes = read_sized(alloc, reader)?;
            Ok(MethodAttribute::Skipped(Attribute { name, bytes }))
        }
    }
}

impl Part for Method {
    ghost Tree = { MethodTree };

    ghost view = { λ m. method_of m };

    ghost read_at = { λ pool _ i. method_at pool i };

    #[tactic(auto, unfolding(crate::specs::FileReading::method_at))]
    fn read(
        alloc: Global,
        pool: &Pool,
        _owner: Owner,
        reader: &mut Reader<'_>,
    ) -> Result<Self, Stop> {
        Ok(Method {
            flags: reader.u2()?,
            name: reader.u2()?,
            descriptor: reader.u2()?,
            attributes: read_table(alloc, pool, Owner::Method, reader)?,
        })
    }
}

/// What stands in a ConstantValue behind its name.
#[tactic(auto, unfolding(crate::specs::FileReading::constant_at))]
fn read_constant_value(reader: &mut Reader<'_>) -> Result<u16, Stop>
    ensures { Gives (λ index. (index, reader.new)) result (constant_at reader.old) }
{
    let fault = reader.fault(Cause::Attribute);
    if reader.u4()? != 2 {
        return Err(fault);
    }
    reader.u2()
}

impl Part for FieldAttribute {
    ghost Tree = { FieldPart };

    ghost view = { λ a. field_part_of a };

    ghost read_at = { λ pool owner i. field_part_at (is_static_field owner) pool i };

    #[tactic(auto, unfolding(crate::specs::FileReading::field_part_at))]
    fn read(
        alloc: Global,
        pool: &Pool,
        owner: Owner,
        reader: &mut Reader<'_>,
    ) -> Result<Self, Stop> {
        let name = reader.u2()?;
        if owner == Owner::StaticField && names(b"ConstantValue", pool, name) {
            let index = read_constant_value(reader)?;
            Ok(FieldAttribute::ConstantValue { name, index })
        } else {
            let bytes = read_sized(alloc, reader)?;
            Ok(FieldAttribute::Skipped(Attribute { name, bytes }))
        }
    }
}

/// To which kind of field a table belongs, by the field's access flags.
fn field_owner(flags: u16) -> Owner
    ensures { is_static_field result ≡ is_static flags }
{
    if flags / 8 % 2 == 1 {
        Owner::StaticField
    } else {
        Owner::InstanceField
    }
}

impl Part for Field {
    ghost Tree = { FieldTree };

    ghost view = { λ f. field_of f };

    ghost read_at = { λ pool _ i. field_at pool i };

    #[tactic(auto, unfolding(crate::specs::FileReading::field_at))]
    fn read(
        alloc: Global,
        pool: &Pool,
        _owner: Owner,
        reader: &mut Reader<'_>,
    ) -> Result<Self, Stop> {
        let flags = reader.u2()?;
        Ok(Field {
            flags,
            name: reader.u2()?,
            descriptor: reader.u2()?,
            attributes: read_table(alloc, pool, field_owner(flags), reader)?,
        })
    }
}
