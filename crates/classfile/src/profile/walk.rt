//! The walk over a class file.

ghost use Rattle.std.specs.Prelude.{◌≡◌, IfOk};
ghost use Rattle.model.specs.Classes.{Program};
ghost use Rattle.classfile.specs.View.{method_of, file_of};
ghost use Rattle.classfile.specs.profile.Descriptions.{rows_of};
ghost use Rattle.classfile.specs.profile.Faults.{row_of, TellsClassAside, Finds, FindsBy, FindsInMethods, FindsInMethod};

use crate::profile::code::first_in_code;
use crate::profile::described::{Described, describe_pool};
use crate::profile::fault::{Fault, Flaw, MethodFault, Place, Spot};
use crate::profile::field::first_field;
use crate::profile::method::is_outside;
use crate::{ClassFile, Method};
use std::alloc::{AllocError, Global};

/// The first fault in a method: of its descriptor or its flags, then in its code.
fn first_in_method(
    alloc: Global,
    file: &ClassFile,
    rows: &[Described],
    aside: &[bool],
    method: &Method,
) -> Result<Option<MethodFault>, AllocError>
    requires { rows.now ≡ rows_of file.now.pool }
    ensures { IfOk result (λ found. FindsInMethod (row_of aside.now) (file_of file.now) (method_of method.now) found) }
{
    if is_outside(file, rows, method) {
        return Ok(Some(MethodFault {
            flaw: Flaw::OutsideProfile,
            spot: Spot::Declaration,
        }));
    }
    match method.code() {
        Some(code) => first_in_code(alloc, file, rows, aside, method, code),
        None => Ok(None),
    }
}

/// The first fault in the methods.
fn first_in_methods(
    alloc: Global,
    file: &ClassFile,
    rows: &[Described],
    aside: &[bool],
) -> Result<Option<Fault>, AllocError>
    requires { rows.now ≡ rows_of file.now.pool }
    ensures { IfOk result (λ found. FindsInMethods (row_of aside.now) (file_of file.now) found) }
{
    for (place, method) in file.methods.iter().enumerate() {
        if let Some(fault) = first_in_method(alloc, file, rows, aside, method)? {
            return Ok(Some(Fault {
                flaw: fault.flaw,
                place: Place::Method {
                    method: place,
                    spot: fault.spot,
                },
            }));
        }
    }
    Ok(None)
}

/// The first fault in the fields and the methods.
fn walk(alloc: Global, file: &ClassFile, aside: &[bool]) -> Result<Option<Fault>, AllocError>
    ensures { IfOk result (λ found. FindsBy (row_of aside.now) (file_of file.now) found) }
{
    let rows = describe_pool(alloc, file.pool.constants())?;
    if let Some(field) = first_field(file, &rows) {
        return Ok(Some(Fault {
            flaw: Flaw::OutsideProfile,
            place: Place::Field { field },
        }));
    }
    first_in_methods(alloc, file, &rows, aside)
}

/// The first fault of a class file: where it is outside of the profile, or where the code of a method is malformed.
/// `None` where it is neither. `AllocError` for want of memory.
///
/// Fields come before methods. In a method come its descriptor and its flags, then max_locals, then its instructions
/// (each whether it is whole and its opcode known, and then its operands), and then the exception entries. Of one
/// place `OutsideProfile` comes before `MalformedCode`.
///
/// What an `invokespecial` may name goes beyond the file, so it is told by the caller: `class_aside` has a row for each
/// index of the constant pool, true where the index is that of a Methodref to another method than a constructor, of a
/// class that is neither the file's own nor a superclass of it. It may end where only false would follow.
pub fn first_fault(
    alloc: Global,
    file: &ClassFile,
    class_aside: &[bool],
) -> Result<Option<Fault>, AllocError>
    ensures { (files : Program) → TellsClassAside files (file_of file.now) class_aside.now
        → IfOk result (λ found. Finds files (file_of file.now) found) }
{
    walk(alloc, file, class_aside)
}
