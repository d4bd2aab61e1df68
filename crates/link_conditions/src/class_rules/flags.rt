//! What the access flags of two methods of one name and descriptor tell of their classes (JVMS 5.4.5).

ghost use Rattle.std.specs.Prelude.{◌≡◌};
ghost use Rattle.model.specs.AccessFlags.{is_package_private};
ghost use Rattle.classfile.specs.View.{method_of};
ghost use Rattle.link_conditions.specs.class_rules.Rules.{is_bad_redeclaration};
ghost use Rattle.link_conditions.specs.class_rules.Declared.{with_flags};

use crate::class_rules::name::is_same_package;
use classfile::Method;
use classfile::access_flags::{FINAL, PRIVATE, PROTECTED, PUBLIC, STATIC, has};

/// Whether only its package may name a method of these access flags (JVMS 5.4.4).
pub(crate) fn is_package_private(flags: u16) -> bool
    ensures { result ≡ is_package_private flags }
{
    !has(flags, PUBLIC) && !has(flags, PRIVATE) && !has(flags, PROTECTED)
}

/// Whether a method of a class must not redeclare one of a superclass that has these access flags.
pub(crate) fn is_bad_redeclaration(
    superclass: &[u8],
    flags: u16,
    class: &[u8],
    again: &Method,
) -> bool
    ensures { result ≡ is_bad_redeclaration superclass.now (with_flags flags) class.now (method_of again.now) }
{
    if has(flags, STATIC) {
        return !has(again.flags, STATIC);
    }
    has(flags, FINAL)
        || has(again.flags, STATIC)
        || is_package_private(flags) && !is_same_package(superclass, class)
        || has(again.flags, PRIVATE)
}
