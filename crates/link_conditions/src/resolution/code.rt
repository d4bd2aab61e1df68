//! The code of a method: its instructions, its exception table.

ghost use Rattle.std.specs.Prelude.{◌≡◌, IfOk, false, true, slice_get, MatchOption};
ghost use Rattle.std.specs.Option.{option_map_or};
ghost use Rattle.std.specs.List.{list_any};
ghost use Rattle.classfile.specs.View.{code_of, file_of};
ghost use Rattle.link_conditions.specs.resolution.Rows.{Tells};
ghost use Rattle.link_conditions.specs.resolution.Unresolved.{exception_stands, FindsInCode};

use crate::resolution::instruction::first_instruction;
use crate::resolution::place::Spot;
use crate::resolution::table::{Row, row_at};
use classfile::{ClassFile, Code};
use hierarchy::Hierarchy;
use model::ExceptionEntry;
use opcodes::starts;
use std::alloc::{AllocError, Global};

/// Whether the catch type of an exception entry is not found.
pub(crate) fn is_catch_missing(
    hierarchy: &Hierarchy,
    file: &ClassFile,
    rows: &[Row],
    entry: ExceptionEntry,
) -> bool
    requires { Tells hierarchy.now (file_of file.now) rows.now }
    ensures { result ≡ exception_stands hierarchy.now (file_of file.now) entry }
{
    entry.catch_type != 0 && row_at(hierarchy, file, rows, entry.catch_type).catch_type
}

/// The first exception entry whose catch type is not found.
fn first_exception(
    hierarchy: &Hierarchy,
    file: &ClassFile,
    rows: &[Row],
    code: &Code,
) -> Option<usize>
    requires { Tells hierarchy.now (file_of file.now) rows.now }
    ensures { MatchOption result
        (list_any (exception_stands hierarchy.now (file_of file.now)) code.now.exceptions.items ≡ false)
        (λ k. option_map_or (exception_stands hierarchy.now (file_of file.now))
        (slice_get code.now.exceptions.items k) false ≡ true) }
{
    for (place, entry) in code.exceptions.iter().enumerate() {
        if is_catch_missing(hierarchy, file, rows, *entry) {
            return Some(place);
        }
    }
    None
}

/// The first name in a code that is not found.
pub(crate) fn first_in_code(
    alloc: Global,
    hierarchy: &Hierarchy,
    file: &ClassFile,
    rows: &[Row],
    code: &Code,
) -> Result<Option<Spot>, AllocError>
    requires { Tells hierarchy.now (file_of file.now) rows.now }
    ensures { IfOk result (FindsInCode hierarchy.now (file_of file.now) (code_of code.now)) }
{
    let marks = starts(alloc, &code.code)?;
    if let Some(pc) = first_instruction(hierarchy, file, rows, code, &marks) {
        return Ok(Some(Spot::Instruction { pc }));
    }
    if let Some(entry) = first_exception(hierarchy, file, rows, code) {
        return Ok(Some(Spot::Exception { entry }));
    }
    Ok(None)
}
