//! Methods that redeclare one of a superclass (JVMS 5.4.5).

ghost use Rattle.std.specs.Prelude.{◌≡◌, option_map, position, slice_get, IsFalse};
ghost use Rattle.std.specs.List.{list_any};
ghost use Rattle.model.specs.Lookup as lookup;
ghost use Rattle.model.specs.Classes.{lineage};
ghost use Rattle.model.specs.Hierarchy.{redeclares_in};
ghost use Rattle.model.specs.Linkable.{stands, DuplicateClass};
ghost use Rattle.constant_pool.specs.View.{reference_of};
ghost use Rattle.classfile.specs.View.{method_of, file_of};
ghost use Rattle.link_conditions.specs.class_rules.Rules.{is_bad_redeclaration, method_breaks_rule};
ghost use Rattle.link_conditions.specs.class_rules.Declared.{AreDeclaredIn};
ghost use Rattle.link_conditions.specs.class_rules.Suspected.{AreSuspects};

use crate::class_rules::declared_methods::DeclaredMethods;
use crate::class_rules::flags::is_bad_redeclaration;
use crate::class_rules::name::is_special_name;
use crate::class_rules::suspects::{Suspects, is_suspect, suspects_of};
use classfile::access_flags::{PRIVATE, has};
use classfile::{ClassFile, Method, Reference, class_name, superclass_name};
use hierarchy::ClassSet;

/// The method at a place of a class file.
fn method_at(file: &ClassFile, place: usize) -> Option<&Method>
    ensures { option_map (λ m. method_of m.now) result ≡ slice_get (file_of file.now).methods place }
{
    file.methods.get(place)
}

/// The method of this name and descriptor that the class of a reference itself declares.
fn declared_method<'a>(set: &'a ClassSet, method: Reference<'_>) -> Option<&'a Method>
    requires { IsFalse (stands set.now DuplicateClass) }
    ensures { option_map (λ m. method_of m.now) result ≡ lookup.method_of set.now (reference_of method.entry) }
{
    let Some(place) = set.declared_method(method) else {
        return None;
    };
    let Some(class) = set.class_at(place.class) else {
        return None;
    };
    method_at(class, place.member)
}

/// Whether a method of a class redeclares one of a superclass as it must not. A private one is not redeclared.
fn redeclares_in(set: &ClassSet, file: &ClassFile, again: &Method, superclass: &[u8]) -> bool
    requires { IsFalse (stands set.now DuplicateClass) }
    ensures { result ≡ redeclares_in is_bad_redeclaration set.now (file_of file.now)
        (method_of again.now) superclass.now }
{
    let above = Reference {
        class: superclass,
        name: file.pool.text(again.name),
        descriptor: file.pool.text(again.descriptor),
    };
    let Some(method) = declared_method(set, above) else {
        return false;
    };
    !has(method.flags, PRIVATE)
        && is_bad_redeclaration(superclass, method.flags, class_name(file), again)
}

/// Whether a method redeclares one of a superclass, which may be one of so many, as it must not.
fn redeclares_suspect(
    set: &ClassSet,
    methods: &DeclaredMethods,
    suspects: Suspects,
    file: &ClassFile,
    again: &Method,
    superclass: &[u8],
) -> bool
    requires differ { IsFalse (stands set.now DuplicateClass) }
    requires suspects { AreSuspects set.now methods.now (file_of file.now) (method_of again.now) suspects }
    ensures { result ≡ redeclares_in is_bad_redeclaration set.now (file_of file.now)
        (method_of again.now) superclass.now }
{
    is_suspect(set, methods, suspects, file, again, superclass)
        && redeclares_in(set, file, again, superclass)
}

/// Whether a method of a class redeclares one of a superclass, or of one above that, as it must not.
fn redeclares_above(
    set: &ClassSet,
    methods: &DeclaredMethods,
    file: &ClassFile,
    again: &Method,
    superclass: &[u8],
) -> bool
    requires differ { IsFalse (stands set.now DuplicateClass) }
    requires declared { AreDeclaredIn set.now methods.now }
    ensures { result ≡ list_any (redeclares_in is_bad_redeclaration set.now (file_of file.now) (method_of again.now))
        (lineage set.now superclass.now) }
{
    let suspects = suspects_of(set, methods, file, again);
    if let Suspects::None = suspects {
        return false;
    }
    let mut class = superclass;
    for _step in 0..set.count() {
        if redeclares_suspect(set, methods, suspects, file, again, class) {
            return true;
        }
        let Some(next) = set.superclass_of(class) else {
            return false;
        };
        class = next;
    }
    false
}

/// Whether a method of a class redeclares one of a superclass as it must not; constructors and initialisers aside.
fn method_breaks_rule(
    set: &ClassSet,
    methods: &DeclaredMethods,
    file: &ClassFile,
    method: &Method,
) -> bool
    requires differ { IsFalse (stands set.now DuplicateClass) }
    requires declared { AreDeclaredIn set.now methods.now }
    ensures { result ≡ method_breaks_rule set.now (file_of file.now) (method_of method.now) }
{
    if is_special_name(file.pool.text(method.name)) {
        return false;
    }
    match superclass_name(file) {
        Some(superclass) => redeclares_above(set, methods, file, method, superclass),
        None => false,
    }
}

fn first_among(
    set: &ClassSet,
    methods: &DeclaredMethods,
    file: &ClassFile,
    among: &[Method],
) -> Option<usize>
    requires differ { IsFalse (stands set.now DuplicateClass) }
    requires declared { AreDeclaredIn set.now methods.now }
    ensures { result ≡ position (λ m. method_breaks_rule set.now (file_of file.now) (method_of m)) among.now }
{
    among
        .iter()
        .position(|method| method_breaks_rule(set, methods, file, method))
}

/// The first method that redeclares one of a superclass as it must not.
pub(crate) fn first_method(
    set: &ClassSet,
    methods: &DeclaredMethods,
    file: &ClassFile,
) -> Option<usize>
    requires differ { IsFalse (stands set.now DuplicateClass) }
    requires declared { AreDeclaredIn set.now methods.now }
    ensures { result ≡ position (method_breaks_rule set.now (file_of file.now)) (file_of file.now).methods }
{
    first_among(set, methods, file, &file.methods)
}
