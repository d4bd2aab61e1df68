//! What is above each class, and what classes have to be to one another.

ghost use Rattle.std.specs.Prelude.{◌≡◌, false, None, IfOk, IfErr, IsFalse, OnOk};
ghost use Rattle.std.specs.List.{list_any};
ghost use Rattle.model.specs.Hierarchy.{in_cycle, has_bad_hierarchy};
ghost use Rattle.model.specs.Linkable.{stands, before_links, earlier, DuplicateClass, Unresolved};
ghost use Rattle.classfile.specs.View.{file_of};
ghost use Rattle.link_conditions.specs.class_rules.Declared.{AreDeclaredIn};
ghost use Rattle.linker.specs.Linking.{RefusesTrees, RefusesFor};
ghost use Rattle.linker.specs.Telling.{rule_method, TellsMethod, TellsRuleOf, TellsLine};

use crate::place::method_text;
use classfile::ClassFile;
use hierarchy::{ClassSet, Hierarchy, first_in_cycle};
use link_conditions::class_rules::{DeclaredMethods, RulePlace, first_broken_rule};
use link_conditions::refusal::{Refusal, RefusalKind};
use std::alloc::{AllocError, Global};

/// A refusal of a broken rule of a file.
fn refusal_of(
    alloc: Global,
    number: usize,
    file: &ClassFile,
    place: RulePlace,
) -> Result<Refusal, AllocError>
    ensures kind { IfOk result (λ r. r.kind ≡ RefusalKind.BadHierarchy) }
    ensures file { IfOk result (λ r. r.file ≡ Some number) }
    ensures line { IfOk result (TellsMethod (file_of file.now) (rule_method place) None) }
{
    match place {
        RulePlace::Class => Ok(Refusal::of_file(RefusalKind::BadHierarchy, number)),
        RulePlace::Method { method } | RulePlace::Exception { method, .. } => {
            Ok(Refusal::of_method(
                RefusalKind::BadHierarchy,
                number,
                method_text(alloc, file, method)?,
                None,
            ))
        }
    }
}

/// Checks that the class of the file with this number breaks no rule.
fn check_file(
    alloc: Global,
    set: &ClassSet,
    methods: &DeclaredMethods,
    number: usize,
    file: &ClassFile,
) -> Result<(), Refusal>
    requires differ { IsFalse (stands set.now DuplicateClass) }
    requires declared { AreDeclaredIn set.now methods.now }
    requires acyclic { in_cycle set.now (file_of file.now) ≡ false }
    ensures passed { OnOk result (has_bad_hierarchy set.now (file_of file.now) ≡ false) }
    ensures refused { IfErr result (λ r.
        RefusesFor RefusalKind.BadHierarchy (has_bad_hierarchy set.now (file_of file.now)) number r.kind
        r.file) }
    ensures line { IfErr result (TellsRuleOf set.now number (file_of file.now)) }
{
    match first_broken_rule(set, methods, file) {
        Some(place) => Err(refusal_of(alloc, number, file, place)?),
        None => Ok(()),
    }
}

/// Checks that no class breaks a rule, where none is above itself.
fn check_rules(alloc: Global, set: &ClassSet, methods: &DeclaredMethods) -> Result<(), Refusal>
    requires passed { list_any (stands set.now) before_links ≡ false }
    requires declared { AreDeclaredIn set.now methods.now }
    requires acyclic { list_any (in_cycle set.now) set.now ≡ false }
    ensures passed { OnOk result (list_any (stands set.now) (earlier Unresolved) ≡ false) }
    ensures refused { IfErr result (λ r. RefusesTrees set.now r.kind r.file r.cause) }
    ensures line { IfErr result (λ r. TellsLine set.now r.kind r) }
{
    for number in 0..set.file_count() {
        let Some(file) = set.file_at(number) else {
            return Ok(());
        };
        check_file(alloc, set, methods, number, file)?;
    }
    Ok(())
}

/// Checks that no class is above itself, and that none breaks a rule: BadHierarchy.
fn check_hierarchy(alloc: Global, set: &ClassSet) -> Result<(), Refusal>
    requires { list_any (stands set.now) before_links ≡ false }
    ensures passed { OnOk result (list_any (stands set.now) (earlier Unresolved) ≡ false) }
    ensures refused { IfErr result (λ r. RefusesTrees set.now r.kind r.file r.cause) }
    ensures line { IfErr result (λ r. TellsLine set.now r.kind r) }
{
    let found = first_in_cycle(alloc, set)?;
    if let Some(number) = found {
        return Err(Refusal::of_file(RefusalKind::BadHierarchy, number));
    }
    let methods = DeclaredMethods::of_set(alloc, set)?;
    check_rules(alloc, set, &methods)
}

/// A set with what is above each of its classes, where they are to one another as they have to be: BadHierarchy.
pub(crate) fn hierarchy_of(alloc: Global, set: ClassSet) -> Result<Hierarchy, Refusal>
    requires { list_any (stands set) before_links ≡ false }
    ensures set { IfOk result (λ hierarchy. hierarchy ≡ set) }
    ensures passed { OnOk result (list_any (stands set) (earlier Unresolved) ≡ false) }
    ensures refused { IfErr result (λ r. RefusesTrees set r.kind r.file r.cause) }
    ensures line { IfErr result (λ r. TellsLine set r.kind r) }
{
    check_hierarchy(alloc, &set)?;
    let hierarchy = Hierarchy::new(alloc, set)?;
    Ok(hierarchy)
}
