//! The set of the classes of files, and what is asked of all of them together.

ghost use Rattle.std.specs.Prelude.{◌≡◌, false, IfOk, IfErr, OnOk};
ghost use Rattle.std.specs.List.{list_any};
ghost use Rattle.model.specs.Linkable.{stands, before_walk, earlier, all_conditions, TooManyFields, NoMain};
ghost use Rattle.hierarchy.specs.Set.{trees_of};
ghost use Rattle.linker.specs.Linking.{RefusesTrees};
ghost use Rattle.linker.specs.Telling.{TellsLine};

use classfile::ClassFile;
use hierarchy::{ClassSet, SetRefusal};
use link_conditions::limits_of_linking::{first_with_too_many_fields, has_no_main, is_too_large};
use link_conditions::refusal::{Refusal, RefusalKind};
use std::alloc::Global;

/// The set of the classes of files: TooLarge, DuplicateClass.
pub(crate) fn class_set(alloc: Global, classes: Vec<ClassFile>) -> Result<ClassSet, Refusal>
    ensures set { IfOk result (λ set. set ≡ trees_of classes.items) }
    ensures passed { OnOk result (list_any (stands (trees_of classes.items)) before_walk ≡ false) }
    ensures refused { IfErr result (λ r. RefusesTrees (trees_of classes.items) r.kind r.file r.cause) }
    ensures line { IfErr result (λ r. TellsLine (trees_of classes.items) r.kind r) }
{
    if is_too_large(alloc, &classes)? {
        return Err(Refusal::of(RefusalKind::TooLarge));
    }
    match ClassSet::new(alloc, classes) {
        Ok(set) => Ok(set),
        Err(SetRefusal::DuplicateClass { file }) => {
            Err(Refusal::of_file(RefusalKind::DuplicateClass, file))
        }
        Err(SetRefusal::OutOfMemory) => Err(Refusal::of(RefusalKind::OutOfMemory)),
    }
}

/// Checks that no class has too many instance fields: TooLarge.
pub(crate) fn check_fields(alloc: Global, set: &ClassSet) -> Result<(), Refusal>
    requires { list_any (stands set.now) (earlier TooManyFields) ≡ false }
    ensures passed { OnOk result (list_any (stands set.now) (earlier NoMain) ≡ false) }
    ensures refused { IfErr result (λ r. RefusesTrees set.now r.kind r.file r.cause) }
    ensures line { IfErr result (λ r. TellsLine set.now r.kind r) }
{
    match first_with_too_many_fields(alloc, set)? {
        Some(number) => Err(Refusal::of_file(RefusalKind::TooLarge, number)),
        None => Ok(()),
    }
}

/// Checks that the class of the first file has a main: NoMain.
pub(crate) fn check_main(set: &ClassSet) -> Result<(), Refusal>
    requires { list_any (stands set.now) (earlier NoMain) ≡ false }
    ensures passed { OnOk result (list_any (stands set.now) all_conditions ≡ false) }
    ensures refused { IfErr result (λ r. RefusesTrees set.now r.kind r.file r.cause) }
    ensures line { IfErr result (λ r. TellsLine set.now r.kind r) }
{
    if has_no_main(set) {
        return Err(Refusal::of(RefusalKind::NoMain));
    }
    Ok(())
}
