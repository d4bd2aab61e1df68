//! What the entries of a constant pool say of the instructions that name them, so that each is looked up once.

ghost use Rattle.std.specs.Prelude.{◌≡◌, ◌<◌, ◌^◌, IfOk, IsFalse, slice_index_or};
ghost use Rattle.model.specs.Linkable.{stands, DuplicateClass};
ghost use Rattle.classfile.specs.View.{file_of};
ghost use Rattle.link_conditions.specs.resolution.Rows.{lacking_texts, nothing, row_of, Tells};

use crate::resolution::descriptor::lacking_texts;
use crate::resolution::operand::{
    is_catch_type_missing, is_class_unresolved, is_field_unresolved,
    is_interface_method_unresolved, is_method_unresolved, is_new_unresolved,
};
use classfile::ClassFile;
use hierarchy::Hierarchy;
use model::{FieldAccess, Invocation};
use std::alloc::{AllocError, Global};

/// Which instructions are unresolved if they name an entry: what they want is not found there.
#[derive(Clone, Copy)]
pub(crate) struct Row {
    /// `ldc` of a Class, `anewarray`, `checkcast` and `instanceof`.
    pub class: bool,
    pub new: bool,
    /// No instruction, but an exception entry that catches the class.
    pub catch_type: bool,
    pub get_static: bool,
    pub put_static: bool,
    /// `getfield` and `putfield`.
    pub instance_field: bool,
    pub static_method: bool,
    /// `invokevirtual` and `invokespecial`.
    pub instance_method: bool,
    pub interface_method: bool,
}

/// What no entry says.
const NOTHING: Row = Row {
    class: false,
    new: false,
    catch_type: false,
    get_static: false,
    put_static: false,
    instance_field: false,
    static_method: false,
    instance_method: false,
    interface_method: false,
};

/// What the entry of an index says.
fn entry_row(hierarchy: &Hierarchy, file: &ClassFile, lacking: &[bool], index: u16) -> Row
    requires differ { IsFalse (stands hierarchy.now DuplicateClass) }
    requires lacking { lacking.now ≡ lacking_texts hierarchy.now file.now.pool }
    ensures { result ≡ row_of hierarchy.now (file_of file.now) index }
{
    let set = hierarchy.set();
    let accesses = |access| is_field_unresolved(hierarchy, file, lacking, access, index);
    let calls = |invocation| is_method_unresolved(hierarchy, file, lacking, invocation, index);
    Row {
        class: is_class_unresolved(set, file, lacking, index),
        new: is_new_unresolved(set, file, lacking, index),
        catch_type: is_catch_type_missing(set, file, index),
        get_static: accesses(FieldAccess::GetStatic),
        put_static: accesses(FieldAccess::PutStatic),
        instance_field: accesses(FieldAccess::GetField),
        static_method: calls(Invocation::Static),
        instance_method: calls(Invocation::Virtual),
        interface_method: is_interface_method_unresolved(hierarchy, file, lacking, index),
    }
}

/// What the entries of the constant pool say, by their index.
pub(crate) fn entry_rows(
    alloc: Global,
    hierarchy: &Hierarchy,
    file: &ClassFile,
    lacking: &[bool],
) -> Result<Vec<Row>, AllocError>
    requires differ { IsFalse (stands hierarchy.now DuplicateClass) }
    requires lacking { lacking.now ≡ lacking_texts hierarchy.now file.now.pool }
    ensures { IfOk result (λ rows. Tells hierarchy.now (file_of file.now) rows.items) }
{
    let mut rows = Vec::new(alloc);
    let indices = (file.pool.constants().len() + 1).min(0x1_0000);
    for index in 0..indices {
        rows.push(entry_row(hierarchy, file, lacking, index as u16))?;
    }
    Ok(rows)
}

/// The row of a place, and nothing past the rows.
fn row_or_nothing(rows: &[Row], place: usize) -> Row
    ensures { result ≡ slice_index_or rows.now place nothing }
{
    rows.get(place).copied().unwrap_or(NOTHING)
}

/// What the entry of an index says.
pub(crate) fn row_at(hierarchy: &Hierarchy, file: &ClassFile, rows: &[Row], index: u16) -> Row
    requires { Tells hierarchy.now (file_of file.now) rows.now }
    ensures { result ≡ row_of hierarchy.now (file_of file.now) index }
{
    row_or_nothing(rows, index as usize)
}
