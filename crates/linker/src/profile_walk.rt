//! The walk over the files that finds what is outside of the profile, and malformed code.

ghost use Rattle.std.specs.Prelude.{◌≡◌, false, IfOk, IfErr, OnOk};
ghost use Rattle.std.specs.List.{list_any};
ghost use Rattle.model.specs.Profile.{is_outside_profile};
ghost use Rattle.model.specs.CodeConditions.{has_malformed_code};
ghost use Rattle.model.specs.Linkable.{stands, before_walk, before_links};
ghost use Rattle.classfile.specs.View.{file_of};
ghost use Rattle.linker.specs.Linking.{RefusesTrees, WalkRefuses, IsFaultRefusal};
ghost use Rattle.linker.specs.Telling.{spot_offset, place_method, offset_in_method};
ghost use Rattle.linker.specs.Telling.{TellsMethod, TellsFault, TellsWalk, TellsLine};

use crate::aside::class_aside;
use crate::place::method_text;
use classfile::ClassFile;
use classfile::profile::{Fault, Flaw, Place, Spot, first_fault};
use constant_pool::reading::Cause;
use hierarchy::ClassSet;
use link_conditions::refusal::{Refusal, RefusalKind};
use std::alloc::{AllocError, Global};

/// The offset in the code of a method, where the place is an instruction.
fn code_offset(spot: Spot) -> Option<usize>
    ensures { result ≡ spot_offset spot }
{
    match spot {
        Spot::Instruction { pc } => Some(pc),
        _ => None,
    }
}

/// A refusal of what is outside of the profile at a place of a file.
fn outside_profile(
    alloc: Global,
    number: usize,
    file: &ClassFile,
    place: Place,
) -> Result<Refusal, AllocError>
    ensures kind { IfOk result (λ r. r.kind ≡ RefusalKind.OutsideProfile) }
    ensures file { IfOk result (λ r. r.file ≡ Some number) }
    ensures line { IfOk result (TellsMethod (file_of file.now) (place_method place) (offset_in_method place)) }
{
    match place {
        Place::Field { .. } => Ok(Refusal::of_file(RefusalKind::OutsideProfile, number)),
        Place::Method { method, spot } => Ok(Refusal::of_method(
            RefusalKind::OutsideProfile,
            number,
            method_text(alloc, file, method)?,
            code_offset(spot),
        )),
    }
}

/// A refusal of a fault of a file.
fn refusal_of(
    alloc: Global,
    number: usize,
    file: &ClassFile,
    fault: Fault,
) -> Result<Refusal, AllocError>
    ensures told { IfOk result (λ r. IsFaultRefusal fault.flaw number r.kind r.file r.cause) }
    ensures line { IfOk result (TellsFault (file_of file.now) fault.flaw fault.place) }
{
    match fault.flaw {
        Flaw::OutsideProfile => outside_profile(alloc, number, file, fault.place),
        Flaw::MalformedCode => {
            let offset = fault.place.code_offset(file);
            Ok(Refusal::malformed(number, offset, Cause::Code))
        }
    }
}

/// Checks that the file with this number is in the profile, and that no code of it is malformed.
fn check_file(alloc: Global, set: &ClassSet, number: usize, file: &ClassFile) -> Result<(), Refusal>
    ensures inside { OnOk result (is_outside_profile (file_of file.now) ≡ false) }
    ensures whole { OnOk result (has_malformed_code set.now (file_of file.now) ≡ false) }
    ensures refused { IfErr result (λ r. WalkRefuses set.now (file_of file.now) number r.kind r.file r.cause) }
    ensures line { IfErr result (TellsWalk set.now number (file_of file.now)) }
{
    let aside = class_aside(alloc, set, file)?;
    match first_fault(alloc, file, &aside)? {
        Some(fault) => Err(refusal_of(alloc, number, file, fault)?),
        None => Ok(()),
    }
}

/// Checks that each file is in the profile, and that no code is malformed: OutsideProfile, Malformed with the cause
/// Code.
pub(crate) fn check_profile(alloc: Global, set: &ClassSet) -> Result<(), Refusal>
    requires { list_any (stands set.now) before_walk ≡ false }
    ensures passed { OnOk result (list_any (stands set.now) before_links ≡ false) }
    ensures refused { IfErr result (λ r. RefusesTrees set.now r.kind r.file r.cause) }
    ensures line { IfErr result (λ r. TellsLine set.now r.kind r) }
{
    for number in 0..set.file_count() {
        let Some(file) = set.file_at(number) else {
            return Ok(());
        };
        check_file(alloc, set, number, file)?;
    }
    Ok(())
}
