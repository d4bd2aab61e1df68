//! Instructions on fields (JVMS 6.5).

ghost use Rattle.std.specs.Prelude.{◌≡◌, ◌||◌, ℕ, Bool, Some, IsFalse, IfOk, IfErr};
ghost use Rattle.std.specs.List.{list_any};
ghost use Rattle.model.specs.Names.{member_eq, system_out, system_err};
ghost use Rattle.model.specs.Classes.{Program};
ghost use Rattle.model.specs.Linkable.{stands, DuplicateClass};
ghost use Rattle.model.specs.Resolution.{is_missing, member_classes, wants_static_field};
ghost use Rattle.model.specs.Operands.{values};
ghost use Rattle.model.specs.Sites.{Site};
ghost use Rattle.model.specs.Meanings.{system_stream_meaning, field_meaning, owner_want};
ghost use Rattle.constant_pool.specs.View.{reference_of};
ghost use Rattle.hierarchy.specs.Places.{member_in};
ghost use Rattle.instruction_types.specs.operand_types.View.{want_in};
ghost use Rattle.types.specs.described_types.Described.{Gives};
ghost use Rattle.instruction_types.specs.Means.{Means};
ghost use Rattle.instruction_types.specs.Answers.{Answers};
ghost use Rattle.instruction_types.specs.Fields.{gets_system_stream, accessed};

use crate::leads::Leads;
use crate::meaning::{Meaning, NoMeaning, popping};
use crate::operand_types::Want;
use crate::places::{is_field_of_kind, place_of};
use crate::want::{class_type, object_at, object_of, want_for};
use classfile::Reference;
use hierarchy::{ClassSet, Hierarchy, MemberPlace};
use model::FieldAccess;
use model::built_in::PRINT_STREAM;
use std::alloc::Global;
use types::VerificationType;
use types::described_types::field_type;

fn is_system_out(field: Reference<'_>) -> bool
    ensures { result ≡ member_eq (reference_of field.entry) system_out }
{
    field.class == b"java/lang/System".as_slice()
        && field.name == b"out".as_slice()
        && field.descriptor == b"Ljava/io/PrintStream;".as_slice()
}

fn is_system_err(field: Reference<'_>) -> bool
    ensures { result ≡ member_eq (reference_of field.entry) system_err }
{
    field.class == b"java/lang/System".as_slice()
        && field.name == b"err".as_slice()
        && field.descriptor == b"Ljava/io/PrintStream;".as_slice()
}

/// `getstatic` of System.out or System.err.
#[tactic(auto, unfolding(model::specs::BuiltIn::built_in_classes))]
fn system_stream(alloc: Global) -> Result<Meaning, NoMeaning>
    ensures means { IfOk result (λ m. (files : Program) (site : Site) (stream : ℕ)
        → Means files site m (system_stream_meaning values site.next stream)) }
    ensures memory { IfErr result (λ e. e ≡ NoMeaning.OutOfMemory) }
{
    let stream = VerificationType::Object(class_type(PRINT_STREAM));
    popping(alloc, &[], 1, Leads::Pushes(stream))
}

/// The object whose field is put: of the class that the instruction names, or `this` in a constructor of that class,
/// where it is the class that declares the field.
fn owner(set: &ClassSet, field: Reference<'_>, found: MemberPlace) -> Option<Want>
    ensures { Gives (want_in set.now) (is_missing set.now field.entry.class.now)
        (owner_want set.now field.entry.class.now (member_in set.now (reference_of field.entry) found)) result }
{
    let Some(class) = place_of(set, field.class) else {
        return None;
    };
    if field.class == set.name_at(found.class) {
        return Some(Want::AnOwner { class });
    }
    Some(object_at(set, class))
}

/// An instruction on a field that is found, static or not as it is to be.
fn on_found(
    alloc: Global,
    set: &ClassSet,
    access: FieldAccess,
    field: Reference<'_>,
    found: MemberPlace,
) -> Result<Meaning, NoMeaning>
    ensures { (site : Site) (others : Bool)
        → Answers set.now site (list_any (is_missing set.now) (member_classes (Some (reference_of field.entry)))
        || others)
        (Some (accessed set.now site access (reference_of field.entry)
        (member_in set.now (reference_of field.entry) found))) result }
{
    let Some(t) = field_type(set, field.descriptor) else {
        return Err(NoMeaning::NotLinked);
    };
    match access {
        FieldAccess::GetStatic => popping(alloc, &[], 1, Leads::Pushes(t)),
        FieldAccess::PutStatic => popping(alloc, &[want_for(t)], 0, Leads::Next),
        FieldAccess::GetField => {
            let Some(object) = object_of(set, field.class) else {
                return Err(NoMeaning::NotLinked);
            };
            popping(alloc, &[object], 1, Leads::Pushes(t))
        }
        FieldAccess::PutField => {
            let Some(object) = owner(set, field, found) else {
                return Err(NoMeaning::NotLinked);
            };
            popping(alloc, &[want_for(t), object], 0, Leads::Next)
        }
    }
}

fn wants_static(access: FieldAccess) -> bool
    ensures { result ≡ wants_static_field access }
{
    match access {
        FieldAccess::GetStatic => true,
        FieldAccess::PutStatic => true,
        FieldAccess::GetField => false,
        FieldAccess::PutField => false,
    }
}

fn gets_system_stream(access: FieldAccess, field: Reference<'_>) -> bool
    ensures { result ≡ gets_system_stream access (reference_of field.entry) }
{
    match access {
        FieldAccess::GetStatic => is_system_out(field) || is_system_err(field),
        FieldAccess::PutStatic => false,
        FieldAccess::GetField => false,
        FieldAccess::PutField => false,
    }
}

/// `getstatic`, `putstatic`, `getfield` and `putfield`.
pub(crate) fn on_field(
    alloc: Global,
    hierarchy: &Hierarchy,
    access: FieldAccess,
    field: Reference<'_>,
) -> Result<Meaning, NoMeaning>
    requires differ { IsFalse (stands hierarchy.now DuplicateClass) }
    ensures { (site : Site) (others : Bool)
        → Answers hierarchy.now site
        (list_any (is_missing hierarchy.now) (member_classes (Some (reference_of field.entry))) || others)
        (field_meaning values hierarchy.now site.next access (reference_of field.entry)) result }
{
    if gets_system_stream(access, field) {
        return system_stream(alloc);
    }
    let set = hierarchy.set();
    let Some(found) = hierarchy.find_field(field) else {
        return Err(NoMeaning::Unnamed);
    };
    if !is_field_of_kind(set, field, found, wants_static(access)) {
        return Err(NoMeaning::Unnamed);
    }
    on_found(alloc, set, access, field, found)
}
