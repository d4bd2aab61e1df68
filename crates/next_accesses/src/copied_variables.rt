//! What `clone` reads (JLS 10.7, 17.4.1): the fields of an object that are variables, or the elements of an array.
//!
//! # Proved
//!
//! - `push_copied`: in whatever world is shown, of an object that may be cloned the reads of all its fields that are
//!   variables, those of its superclasses first, or of all its elements, and none of another object (`TellsCopied`).
//!
//! # Not proved
//!
//! - That the instruction of the frame runs `clone` on the object is for whoever calls.
//!
//! # Wrong bodies
//!
//! - `copied_variables-what-may-not-be-cloned-is-read`: fields of an object are read whose class isn't Cloneable;
//!   refused by `push_copied`.
//! - `copied_variables-elements-are-written`: an array is told to be written; refused by `whole_array`.

ghost use Rattle.std.specs.Prelude.{◌≡◌, ◌++◌, OnOk, map, slice_get};
ghost use Rattle.machine_state.specs.method_selection.Rows.{AreClassesRead};
ghost use Rattle.next_accesses.specs.copied_variables.Copied.{TellsCopied, TellsFields, field_read};
ghost use Rattle.next_accesses.specs.copied_variables.Copied as copied;
ghost use Rattle.next_accesses.specs.next_access.Added.{Adds};

use crate::access_tables::AccessTables;
use crate::element_ranges::{ElementRange, push_elements};
use field_names::instance_variables::instance_variables;
use field_names::named_fields::NamedField;
use heap::{Heap, ObjectKind};
use linked_code::LinkedProgram;
use machine_state::method_selection::{class_at, classes_are_read};
use race_places::run_actions::{Action, Variable};
use std::alloc::{AllocError, Global};

/// Whether objects of the class of a number may be cloned.
fn is_cloneable(program: &LinkedProgram, class: u32) -> bool
    ensures { result ≡ copied.is_row_cloneable (slice_get program.now.classes.items class) }
{
    match class_at(program, class) {
        Some(row) => row.is_cloneable,
        None => false,
    }
}

/// All elements of an array, each of which is read.
fn whole_array(heap: &Heap, array: u32) -> ElementRange
    ensures { result ≡ copied.whole_array heap.now.objects array }
{
    ElementRange {
        array,
        first: 0,
        end: heap.length(array),
        is_written: false,
    }
}

/// The read of a field of an object.
fn read_of_field(object: u32, field: NamedField) -> Action
    ensures { result ≡ field_read object field }
{
    Action::Read {
        variable: Variable::InstanceField {
            object,
            class: field.class,
            field: field.field,
        },
        is_volatile: field.is_volatile,
    }
}

/// Puts the reads of some fields of an object behind others. The only error is a want of memory.
fn push_reads(found: &mut Vec<Action>, object: u32, fields: &[NamedField]) -> Result<(), AllocError>
    ensures { OnOk result (found.new.items ≡ found.old.items ++ map (field_read object) fields.now) }
{
    'fields: for at in 0..fields.len() {
        found.push(read_of_field(object, fields[at]))?;
    }
    Ok(())
}

/// Puts the reads of all fields that are variables behind others, of an object of the class of a number. The only error
/// is a want of memory.
fn push_fields(
    found: &mut Vec<Action>,
    tables: &AccessTables<'_>,
    object: u32,
    class: u32,
) -> Result<(), AllocError>
    ensures { OnOk result (Adds (TellsFields tables.now.linked.now object class) found.old.items found.new.items) }
{
    let alloc = *found.allocator();
    let name = tables.linked.set().name_at(class as usize);
    let fields = instance_variables(alloc, tables.linked, name)?;
    push_reads(found, object, &fields)
}

/// Puts what `clone` of an object reads behind other accesses. The only error is a want of memory.
pub(crate) fn push_copied(
    found: &mut Vec<Action>,
    tables: &AccessTables<'_>,
    program: &LinkedProgram,
    heap: &Heap,
    object: u32,
) -> Result<(), AllocError>
    ensures { OnOk result (Adds (TellsCopied tables.now.linked.now program.now heap.now.objects object)
        found.old.items found.new.items) }
{
    classes_are_read();
    let Some(kind) = heap.class_of(object) else {
        return Ok(());
    };
    match kind {
        ObjectKind::Instance { class } => {
            if is_cloneable(program, class) {
                push_fields(found, tables, object, class)
            } else {
                Ok(())
            }
        }
        _ => push_elements(found, whole_array(heap, object)),
    }
}
