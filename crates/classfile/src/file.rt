//! The whole file (JVMS 4.1).

ghost use Rattle.std.specs.Prelude.{◌≡◌, IfOk, IfErr};
ghost use Rattle.model.specs.Tree.{FileTree};
ghost use Rattle.model.specs.Spelling.{Layout};
ghost use Rattle.model.specs.Spells.{Spells};
ghost use Rattle.constant_pool.specs.reading.Reading.{Gives};
ghost use Rattle.class_tree.specs.View.{file_of};
ghost use Rattle.classfile.specs.FileReading.{parts_at, file_at};
ghost use Rattle.classfile.specs.Decoding.{Answers, Decodes, IsFaultOf};

use crate::part::{Owner, read_table};
use class_tree::{ClassFile, check_conditions};
use constant_pool::Pool;
use constant_pool::reading::{Cause, Malformed, Reader, Stop};
use std::alloc::Global;

/// What stands behind the version.
#[tactic(auto, unfolding(crate::specs::FileReading::parts_at))]
fn read_parts(alloc: Global, reader: &mut Reader<'_>) -> Result<ClassFile, Stop>
    ensures { Gives (λ c. (file_of c, reader.new)) result (parts_at reader.old) }
{
    let pool = Pool::read(alloc, reader)?;
    let flags = reader.u2()?;
    let this_class = reader.u2()?;
    let super_class = reader.u2()?;
    let interfaces = read_table(alloc, &pool, Owner::Class, reader)?;
    let fields = read_table(alloc, &pool, Owner::Class, reader)?;
    let methods = read_table(alloc, &pool, Owner::Class, reader)?;
    let attributes = read_table(alloc, &pool, Owner::Class, reader)?;
    Ok(ClassFile {
        pool,
        flags,
        this_class,
        super_class,
        interfaces,
        fields,
        methods,
        attributes,
    })
}

#[tactic(auto, unfolding(crate::specs::FileReading::file_at, constant_pool::specs::reading::Reading::pair_at))]
fn read_file(alloc: Global, reader: &mut Reader<'_>) -> Result<ClassFile, Stop>
    ensures { Gives (λ c. file_of c) result (file_at reader.old) }
{
    let fault = reader.fault(Cause::Magic);
    if reader.u4()? != 0xcafe_babe {
        return Err(fault);
    }
    let fault = reader.fault(Cause::Version);
    let minor = reader.u2()?;
    let major = reader.u2()?;
    if minor != 0 || major != 49 {
        return Err(fault);
    }
    let file = read_parts(alloc, reader)?;
    if !reader.is_at_end() {
        return Err(reader.fault(Cause::Trailing));
    }
    Ok(file)
}

fn decoded(alloc: Global, bytes: &[u8]) -> Result<ClassFile, Malformed>
    ensures { Decodes result (file_at (record { at = 0; rest = bytes.now })) }
{
    match read_file(alloc, &mut Reader::new(bytes)) {
        Ok(file) => Ok(file),
        Err(stop) => Err(stop.malformed()),
    }
}

/// The tree of the fields of the bytes.
fn laid_out(alloc: Global, bytes: &[u8]) -> Result<ClassFile, Malformed>
    ensures found { IfOk result (λ c. Layout bytes.now (file_of c)) }
    ensures only { (c : FileTree) → Layout bytes.now c → Answers result c }
    ensures refused { IfErr result (IsFaultOf bytes.now) }
{
    decoded(alloc, bytes)
}

/// The class file that the bytes are.
///
/// First all fields are read in the order of the file, and the first fault is answered, each at the offset where its
/// field begins: `Truncated`, `Magic`, `Version` (at 4), `Tag`, `Utf8`, `Attribute` (a length that does not fit) and,
/// behind the last field, `Trailing`. A constant_pool_count of 0 is `Truncated` there. Then the conditions follow,
/// each over the whole file: `Index`, at the first index that names no entry of the kind that it has to name; `Name`
/// and `Descriptor`, at the first index of a name or of a descriptor that is none; `Attribute`, at the first method
/// without its Code, or the name of a Code or a ConstantValue too many, or the index of a ConstantValue of another
/// kind than the field's type; `Duplicate`, at the second of two members of one name and one descriptor.
pub fn decode(alloc: Global, bytes: &[u8]) -> Result<ClassFile, Malformed>
    // What is answered is spelled so.
    ensures found { IfOk result (λ c. Spells bytes.now (file_of c)) }
    // What is spelled so is answered, unless memory runs out.
    ensures only { (c : FileTree) → Spells bytes.now c → Answers result c }
    // A refusal's cause stands there, unless memory ran out.
    ensures refused { IfErr result (IsFaultOf bytes.now) }
{
    let file = laid_out(alloc, bytes)?;
    match check_conditions(alloc, &file) {
        Ok(()) => Ok(file),
        Err(fault) => Err(fault.malformed()),
    }
}
