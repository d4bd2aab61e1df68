//! Whether what files name is found.

ghost use Rattle.std.specs.Prelude.{◌≡◌, false, IfOk, IfErr, IsFalse, OnOk};
ghost use Rattle.std.specs.List.{list_any};
ghost use Rattle.model.specs.Resolution.{is_unresolved};
ghost use Rattle.model.specs.Linkable.{stands, earlier, DuplicateClass, Unresolved, TooManyFields};
ghost use Rattle.classfile.specs.View.{file_of};
ghost use Rattle.linker.specs.Linking.{RefusesTrees, RefusesFor};
ghost use Rattle.linker.specs.Telling.{name_method, name_offset, TellsMethod, TellsNameOf, TellsLine};

use crate::place::method_text;
use classfile::ClassFile;
use hierarchy::Hierarchy;
use link_conditions::refusal::{Refusal, RefusalKind};
use link_conditions::resolution::{UnresolvedPlace, first_unresolved};
use std::alloc::{AllocError, Global};

/// A refusal of a name in a method, at an offset of its code where an instruction names it.
fn in_method(
    alloc: Global,
    number: usize,
    file: &ClassFile,
    method: usize,
    offset: Option<usize>,
) -> Result<Refusal, AllocError>
    ensures kind { IfOk result (λ r. r.kind ≡ RefusalKind.Unresolved) }
    ensures file { IfOk result (λ r. r.file ≡ Some number) }
    ensures line { IfOk result (TellsMethod (file_of file.now) (Some method) offset) }
{
    Ok(Refusal::of_method(
        RefusalKind::Unresolved,
        number,
        method_text(alloc, file, method)?,
        offset,
    ))
}

/// A refusal of a name in a file that is not found.
fn refusal_of(
    alloc: Global,
    number: usize,
    file: &ClassFile,
    place: UnresolvedPlace,
) -> Result<Refusal, AllocError>
    ensures kind { IfOk result (λ r. r.kind ≡ RefusalKind.Unresolved) }
    ensures file { IfOk result (λ r. r.file ≡ Some number) }
    ensures line { IfOk result (TellsMethod (file_of file.now) (name_method place) (name_offset place)) }
{
    match place {
        UnresolvedPlace::Class => Ok(Refusal::of_file(RefusalKind::Unresolved, number)),
        UnresolvedPlace::Field { .. } => Ok(Refusal::of_file(RefusalKind::Unresolved, number)),
        UnresolvedPlace::Method { method } => in_method(alloc, number, file, method, None),
        UnresolvedPlace::Instruction { method, pc } => {
            in_method(alloc, number, file, method, Some(pc))
        }
        UnresolvedPlace::Exception { method, .. } => in_method(alloc, number, file, method, None),
    }
}

/// Checks that all names in the file with this number are found.
fn check_file(
    alloc: Global,
    hierarchy: &Hierarchy,
    number: usize,
    file: &ClassFile,
) -> Result<(), Refusal>
    requires { IsFalse (stands hierarchy.now DuplicateClass) }
    ensures passed { OnOk result (is_unresolved hierarchy.now (file_of file.now) ≡ false) }
    ensures refused { IfErr result (λ r.
        RefusesFor RefusalKind.Unresolved (is_unresolved hierarchy.now (file_of file.now)) number r.kind
        r.file) }
    ensures line { IfErr result (TellsNameOf hierarchy.now number (file_of file.now)) }
{
    match first_unresolved(alloc, hierarchy, file)? {
        Some(place) => Err(refusal_of(alloc, number, file, place)?),
        None => Ok(()),
    }
}

/// Checks that all names in the files are found: Unresolved.
pub(crate) fn check_names(alloc: Global, hierarchy: &Hierarchy) -> Result<(), Refusal>
    requires { list_any (stands hierarchy.now) (earlier Unresolved) ≡ false }
    ensures passed { OnOk result (list_any (stands hierarchy.now) (earlier TooManyFields) ≡ false) }
    ensures refused { IfErr result (λ r. RefusesTrees hierarchy.now r.kind r.file r.cause) }
    ensures line { IfErr result (λ r. TellsLine hierarchy.now r.kind r) }
{
    let set = hierarchy.set();
    for number in 0..set.file_count() {
        let Some(file) = set.file_at(number) else {
            return Ok(());
        };
        check_file(alloc, hierarchy, number, file)?;
    }
    Ok(())
}
