//! The first rule that a class file breaks.

ghost use Rattle.std.specs.Prelude.{◌≡◌, ◌||◌, is_some, IfSome, IsFalse};
ghost use Rattle.model.specs.Hierarchy.{in_cycle, has_bad_hierarchy};
ghost use Rattle.model.specs.Linkable.{stands, DuplicateClass};
ghost use Rattle.classfile.specs.View.{file_of};
ghost use Rattle.link_conditions.specs.class_rules.Rules.{breaks_rules, IsFirstBroken};
ghost use Rattle.link_conditions.specs.class_rules.Declared.{AreDeclaredIn};

use crate::class_rules::class::class_breaks_rule;
use crate::class_rules::declared_methods::DeclaredMethods;
use crate::class_rules::exception::first_exception;
use crate::class_rules::method::first_method;
use crate::class_rules::place::RulePlace;
use classfile::ClassFile;
use hierarchy::ClassSet;

/// The first place at which a class file is at odds with the classes of its program, and so refused as BadHierarchy:
///
/// - the class itself: its superclass is an interface or final, a listed interface is none, or it is an interface whose
///   superclass is not Object (JVMS 4.1);
/// - then a method that redeclares one of any superclass as it must not: a final one, a static one as an instance method
///   or the reverse, a package-private one in another package, or an instance method as a private one (JVMS 5.4.5; the
///   last four are own). A private method of the superclass is none of these, nor is a constructor or an initialiser;
/// - then an exception entry, method by method, whose catch type is found and is neither Throwable nor below it, or is an
///   array class (JVMS 4.7.3).
///
/// `None` where there is none. A superclass, a superinterface or a catch type that is not found breaks no rule, but
/// that an interface has to be below Object. Nor does a cycle, which has to be asked for apart. The file need not be
/// one of the set. Takes no memory.
pub fn first_broken_rule(
    set: &ClassSet,
    methods: &DeclaredMethods,
    file: &ClassFile,
) -> Option<RulePlace>
    // as of each set that `ClassSet::new` makes
    requires names_differ { IsFalse (stands set.now DuplicateClass) }
    // as `DeclaredMethods::of_set` makes them
    requires declared { AreDeclaredIn set.now methods.now }
    ensures found { is_some result ≡ breaks_rules set.now (file_of file.now) }
    ensures first { IfSome result (IsFirstBroken set.now (file_of file.now)) }
    ensures refused { has_bad_hierarchy set.now (file_of file.now)
        ≡ (in_cycle set.now (file_of file.now) || is_some result) }
{
    if class_breaks_rule(set, file) {
        return Some(RulePlace::Class);
    }
    if let Some(method) = first_method(set, methods, file) {
        return Some(RulePlace::Method { method });
    }
    match first_exception(set, file) {
        Some((method, entry)) => Some(RulePlace::Exception { method, entry }),
        None => None,
    }
}
