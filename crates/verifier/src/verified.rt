//! Linked classes that are verified.

ghost use Rattle.std.specs.Prelude.{◌≡◌, ◌⊎◌, ◌++◌, None, OnOk, IfOk, IfErr};
ghost use Rattle.model.specs.Typing.{AreTyped};
ghost use Rattle.types.specs.method_code.Linked.{IsLinked};
ghost use Rattle.types.specs.method_code.View.{member_of};
ghost use Rattle.link_conditions.specs.declared.refusal.why.RefusalKind.TheVariants as kinds;
ghost use Rattle.verifier.specs.Steps.{most_steps, steps_at, steps_of_class, all_steps, TakesAtMost};
ghost use Rattle.verifier.specs.Places.{file_number, IsTypedAt, AreTypedIn, IsRefusalOf, RefusesPart, Refuses, IsLimited};

use crate::fault::MethodFault;
use crate::method::verify_method;
use crate::steps::{MOST_STEPS, Steps};
use hierarchy::Hierarchy;
use link_conditions::refusal::{Refusal, RefusalKind};
use linker::Linked;
use model::BUILT_IN_CLASSES;
use std::alloc::{AllocError, Global};
use std::marker::Model;
use types::method_code::MethodCode;

/// The classes of class files in which no condition of linking stands, and each of whose methods with code has a typing
/// (JVMS 4.10).
#[derive(Drop)]
pub struct Verified {
    linked: Linked,
}

impl Model for Verified {
    ghost use Rattle.model.specs.Classes.{Program};
    ghost use Rattle.model.specs.Typing.{AreTyped};

    ghost Value = { Program };

    ghost view = { λ v. v.linked };

    ghost invariant = { λ v. AreTyped v.linked };
}

impl Verified {
    /// The linked classes.
    pub fn linked(&self) -> &Linked
        ensures same { result.now ≡ self.now }
        ensures typed { AreTyped self.now }
    {
        &self.linked
    }
}

/// The number of the file whose class has a place. A built-in class has none.
fn file_number(class: usize) -> Option<usize>
    ensures { result ≡ file_number class }
{
    if class < BUILT_IN_CLASSES {
        return None;
    }
    Some(class - BUILT_IN_CLASSES)
}

/// The name of a method with its descriptor behind it.
fn text_of(alloc: Global, method: &MethodCode<'_>) -> Result<Vec<u8>, AllocError>
    ensures { IfOk result (λ t. t.items ≡ (member_of method.now).name ++ (member_of method.now).descriptor) }
{
    let mut text = Vec::from_slice(alloc, method.name())?;
    text.extend_from_slice(method.descriptor())?;
    Ok(text)
}

/// The refusal of a method of the class at a place.
fn refusal_of(
    alloc: Global,
    class: usize,
    method: &MethodCode<'_>,
    kind: RefusalKind,
    offset: Option<usize>,
) -> Refusal
    ensures { (result.kind ≡ kinds.OutOfMemory)
        ⊎ (IsRefusalOf kind class (member_of method.now) result × (result.offset ≡ offset)) }
{
    match text_of(alloc, method) {
        Err(error) => Refusal::from(error),
        Ok(text) => Refusal {
            kind,
            file: file_number(class),
            method: Some(text),
            offset,
            cause: None,
        },
    }
}

/// The refusal of one, for what is found at an offset of its code.
fn unverified(alloc: Global, class: usize, method: &MethodCode<'_>, offset: usize) -> Refusal
    ensures { (result.kind ≡ kinds.OutOfMemory) ⊎ IsRefusalOf kinds.Unverified class (member_of method.now) result }
{
    refusal_of(alloc, class, method, RefusalKind::Unverified, Some(offset))
}

/// The refusal of one whose search needs more steps than are left.
fn too_long(alloc: Global, class: usize, method: &MethodCode<'_>) -> Refusal
    ensures { (result.kind ≡ kinds.OutOfMemory) ⊎ (IsRefusalOf kinds.TooLarge class (member_of method.now) result
        × (result.offset ≡ None)) }
{
    refusal_of(alloc, class, method, RefusalKind::TooLarge, None)
}

/// Verifies the method at a place, if it has code.
fn verify_at(
    alloc: Global,
    hierarchy: &Hierarchy,
    class: usize,
    member: usize,
    steps: &mut Steps,
) -> Result<(), Refusal>
    requires { IsLinked hierarchy.now }
    ensures typed { OnOk result (IsTypedAt hierarchy.now class member) }
    ensures taken { OnOk result
        (TakesAtMost hierarchy.now (steps_at hierarchy.now class member) steps.old.left steps.new.left) }
    ensures refused { IfErr result (RefusesPart hierarchy.now (steps_at hierarchy.now class member) steps.old.left) }
{
    let Some(method) = MethodCode::new(hierarchy, class, member) else {
        return Ok(());
    };
    match verify_method(alloc, &method, steps) {
        Ok(()) => Ok(()),
        Err(MethodFault::Unverified { offset }) => Err(unverified(alloc, class, &method, offset)),
        Err(MethodFault::TooLong) => Err(too_long(alloc, class, &method)),
        Err(MethodFault::OutOfMemory) => Err(Refusal::from(AllocError)),
    }
}

/// Verifies the methods of the class at a place, in their order.
fn verify_class(
    alloc: Global,
    hierarchy: &Hierarchy,
    class: usize,
    steps: &mut Steps,
) -> Result<(), Refusal>
    requires { IsLinked hierarchy.now }
    ensures typed { OnOk result (AreTypedIn hierarchy.now class) }
    ensures taken { OnOk result
        (TakesAtMost hierarchy.now (steps_of_class hierarchy.now class) steps.old.left steps.new.left) }
    ensures refused { IfErr result (RefusesPart hierarchy.now (steps_of_class hierarchy.now class) steps.old.left) }
{
    let Some(file) = hierarchy.set().class_at(class) else {
        return Ok(());
    };
    for member in 0..file.methods.len() {
        if let Err(refusal) = verify_at(alloc, hierarchy, class, member, steps) {
            return Err(refusal);
        }
    }
    Ok(())
}

/// Verifies the methods of the classes of all files, in their order. Those of built-in classes have typings in each
/// program.
fn verify_files(alloc: Global, hierarchy: &Hierarchy, steps: &mut Steps) -> Result<(), Refusal>
    requires { IsLinked hierarchy.now }
    ensures typed { OnOk result (AreTyped hierarchy.now) }
    ensures refused { IfErr result (RefusesPart hierarchy.now (all_steps hierarchy.now) steps.old.left) }
{
    for class in BUILT_IN_CLASSES..hierarchy.set().count() {
        if let Err(refusal) = verify_class(alloc, hierarchy, class, steps) {
            return Err(refusal);
        }
    }
    Ok(())
}

/// Verifies the methods with code of linked classes, in the order of the files and of their methods (JVMS 4.10). It
/// takes so many steps at most, all methods together. Those of built-in classes have typings in each program, and take
/// none.
///
/// `Unverified` names the file, the method, and the offset of the instruction whose rule
/// fails, or where frame types can't be merged, or from which the code runs off its end; of several offsets that
/// which a worklist meets that takes the lowest first. `TooLarge` names the method in whose search the steps end,
/// with its file, and no offset.
pub fn verify_within(alloc: Global, linked: Linked, most: u64) -> Result<Verified, Refusal>
    ensures verified { IfOk result (λ verified. verified ≡ linked) }
    // A method is refused only where it has no typing, or where the searches over all take more steps.
    ensures refused { IfErr result (Refuses linked most) }
    ensures limited { IfErr result (IsLimited linked most) }
{
    let mut steps = Steps::new(most);
    match verify_files(alloc, linked.hierarchy(), &mut steps) {
        Ok(()) => Ok(Verified { linked }),
        Err(refusal) => Err(refusal),
    }
}

/// Verifies as `verify_within` does, within `MOST_STEPS`.
pub fn verify(alloc: Global, linked: Linked) -> Result<Verified, Refusal>
    ensures verified { IfOk result (λ verified. verified ≡ linked) }
    ensures refused { IfErr result (Refuses linked most_steps) }
    ensures limited { IfErr result (IsLimited linked most_steps) }
{
    verify_within(alloc, linked, MOST_STEPS)
}
