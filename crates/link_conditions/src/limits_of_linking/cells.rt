//! Which instance fields count for the limit on cells (own).

ghost use Rattle.std.specs.Prelude.{◌≡◌, map};
ghost use Rattle.std.specs.List.{list_any};
ghost use Rattle.classfile.specs.View.{field_of, file_of};
ghost use Rattle.constant_pool.specs.View.{reference_of};
ghost use Rattle.model.specs.Classes.{name_of};
ghost use Rattle.model.specs.HiddenMembers.{is_cell, is_hidden};
ghost use Rattle.model.specs.Lookup.{field_member};
ghost use Rattle.model.specs.Names.{member_eq};
ghost use Rattle.link_conditions.specs.limits_of_linking.Cells.{is_own_cell, own_cells};

use crate::hidden_members::{HIDDEN_FIELDS, THREAD_TARGET};
use classfile::{ClassFile, Field, Reference, class_name};

/// Whether a field that a class declares is this one.
fn is_named(file: &ClassFile, field: &Field, named: Reference<'_>) -> bool
    ensures { result ≡ member_eq (field_member (name_of (file_of file.now)) (file_of file.now).pool
        (field_of field.now)) (reference_of named.entry) }
{
    class_name(file) == named.class
        && file.pool.text(field.name) == named.name
        && file.pool.text(field.descriptor) == named.descriptor
}

/// Whether a field that a class declares is one of these.
fn is_among(file: &ClassFile, field: &Field, all: &[Reference<'static>]) -> bool
    ensures { result ≡ list_any (member_eq (field_member (name_of (file_of file.now)) (file_of file.now).pool
        (field_of field.now))) (map reference_of all.now) }
{
    for named in all {
        if is_named(file, field, *named) {
            return true;
        }
    }
    false
}

/// Whether a field that a class declares is hidden.
fn is_hidden(file: &ClassFile, field: &Field) -> bool
    ensures { result ≡ is_hidden (field_member (name_of (file_of file.now)) (file_of file.now).pool
        (field_of field.now)) }
{
    is_among(file, field, &HIDDEN_FIELDS)
}

/// Whether a field that a class declares counts: of the hidden ones the target of a Thread alone does.
fn is_cell(file: &ClassFile, field: &Field) -> bool
    ensures { result ≡ is_cell (field_member (name_of (file_of file.now)) (file_of file.now).pool
        (field_of field.now)) }
{
    !is_hidden(file, field) || is_named(file, field, THREAD_TARGET)
}

/// Whether a field that a class declares is one of its objects, and counts.
fn is_own_cell(file: &ClassFile, field: &Field) -> bool
    ensures { result ≡ is_own_cell (file_of file.now) (field_of field.now) }
{
    !field.is_static() && is_cell(file, field)
}

/// How many instance fields that a class itself declares count for the limit on cells.
pub fn own_cells(file: &ClassFile) -> usize
    ensures { result ≡ own_cells (file_of file.now) }
{
    let mut count = 0usize;
    for field in &file.fields {
        if is_own_cell(file, field) {
            count += 1;
        }
    }
    count
}
