//! Linking: what set of classes files are, or why they are refused.

ghost use Rattle.std.specs.Prelude.{◌≡◌, false, IfOk, IfErr, MatchResult, OnOk, map, vec_items};
ghost use Rattle.std.specs.List.{list_any};
ghost use Rattle.model.specs.Classes.{Program};
ghost use Rattle.model.specs.Linkable.{IsLinkable, Unresolved, earlier, some_stands, stands};
ghost use Rattle.hierarchy.specs.Set.{trees_of};
ghost use Rattle.linker.specs.Linking.{MayRefuse, RefusesTrees};
ghost use Rattle.linker.specs.Telling.{TellsLine, TellsLineOf};
ghost use Rattle.link_conditions.specs.declared.refusal.why.RefusalKind.TheVariants as kinds;

use crate::decoding::decode_all;
use crate::hierarchy_rules::hierarchy_of;
use crate::linked::Linked;
use crate::names::check_names;
use crate::profile_walk::check_profile;
use crate::set::{check_fields, check_main, class_set};
use classfile::ClassFile;
use hierarchy::Hierarchy;
use link_conditions::refusal::Refusal;
use std::alloc::Global;

/// Checks that no condition stands of those that come behind what classes have to be to one another.
fn check_links(alloc: Global, hierarchy: &Hierarchy) -> Result<(), Refusal>
    requires { list_any (stands hierarchy.now) (earlier Unresolved) ≡ false }
    ensures passed { OnOk result (some_stands hierarchy.now ≡ false) }
    ensures refused { IfErr result (λ r. RefusesTrees hierarchy.now r.kind r.file r.cause) }
    ensures line { IfErr result (λ r. TellsLine hierarchy.now r.kind r) }
{
    check_names(alloc, hierarchy)?;
    check_fields(alloc, hierarchy.set())?;
    check_main(hierarchy.set())
}

/// The classes of class files, with what is above each of them.
fn link_classes(alloc: Global, classes: Vec<ClassFile>) -> Result<Hierarchy, Refusal>
    ensures linked { IfOk result (λ hierarchy. hierarchy ≡ trees_of classes.items) }
    ensures passed { OnOk result (some_stands (trees_of classes.items) ≡ false) }
    ensures refused { IfErr result (λ r. RefusesTrees (trees_of classes.items) r.kind r.file r.cause) }
    ensures line { IfErr result (λ r. TellsLine (trees_of classes.items) r.kind r) }
{
    let set = class_set(alloc, classes)?;
    check_profile(alloc, &set)?;
    let hierarchy = hierarchy_of(alloc, set)?;
    check_links(alloc, &hierarchy)?;
    Ok(hierarchy)
}

/// Links class files. The first of them holds the initial class (JVMS 5.2, own).
///
/// A refusal is the first of these, want of memory aside. For each file in order: `Malformed`, where it is no class
/// file. Then of all files: `TooLarge`, for more than 65,000 files or 200,000,000 texts of string constants;
/// `DuplicateClass`. Then in one walk over the files: `OutsideProfile`, and `Malformed` with the cause `Code`. Then,
/// each for all files in order: `BadHierarchy`, cycles before all else; `Unresolved`; `TooLarge`, for a class with
/// more than 65,535 instance fields; and last `NoMain`.
pub fn link(alloc: Global, files: &[Vec<u8>]) -> Result<Linked, Refusal>
    // What is answered are the trees that the files spell, and no condition stands in them.
    ensures linked { IfOk result (λ linked. IsLinkable (map vec_items files.now) linked) }
    // Files that may be linked are answered, unless memory runs out.
    ensures only { (trees : Program) → IsLinkable (map vec_items files.now) trees
        → MatchResult result (λ linked. linked ≡ trees) (λ r. r.kind ≡ kinds.OutOfMemory) }
    // A refusal is answered only where it stands, and none stands that comes before it. Of a file that is no class
    // file the cause stands at the offset.
    ensures refused { IfErr result (λ r. MayRefuse (map vec_items files.now) r.kind r.file r.offset r.cause) }
    // Of the files in which the condition stands the first is named, but for DuplicateClass; and of the fault in it the
    // method and the offset, where it has them. Want of memory names no more than a file that was being read.
    ensures line { IfErr result (λ r. TellsLineOf (map vec_items files.now) r.kind r) }
{
    let classes = decode_all(alloc, files)?;
    let hierarchy = link_classes(alloc, classes)?;
    Ok(Linked::new(hierarchy))
}
