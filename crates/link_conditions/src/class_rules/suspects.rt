//! Which classes may declare a method that another one redeclares as it must not.

ghost use Rattle.std.specs.Prelude.{◌≡◌, false};
ghost use Rattle.std.specs.List.{list_any};
ghost use Rattle.model.specs.Hierarchy.{redeclares_in};
ghost use Rattle.classfile.specs.View.{file_of, method_of};
ghost use Rattle.link_conditions.specs.class_rules.Rules.{is_bad_redeclaration};
ghost use Rattle.link_conditions.specs.class_rules.Declared.{AreDeclaredIn, may_be_bad};
ghost use Rattle.link_conditions.specs.class_rules.Suspected.{AreSuspects};

use crate::class_rules::declared_methods::DeclaredMethods;
use crate::class_rules::flags::{is_bad_redeclaration, is_package_private};
use crate::class_rules::method_table::{flags_at, flags_of, number_of};
use classfile::access_flags::{FINAL, PRIVATE, STATIC, has};
use classfile::{ClassFile, Method, class_name};
use hierarchy::ClassSet;

/// Classes among which are all those that declare a method which another one redeclares as it must not.
#[derive(Clone, Copy)]
pub(crate) enum Suspects {
    All,
    None,
    /// The classes that declare the method of a number, as far as its access flags tell.
    Of { number: usize },
}

/// Whether there may be classes in which a method must not redeclare one that has these access flags.
fn may_be_bad(flags: u16, again: &Method) -> bool
    ensures { result ≡ may_be_bad (method_of again.now) flags }
{
    if has(flags, PRIVATE) {
        return false;
    }
    if has(flags, STATIC) {
        return !has(again.flags, STATIC);
    }
    has(flags, FINAL)
        || has(again.flags, STATIC)
        || has(again.flags, PRIVATE)
        || is_package_private(flags)
}

/// Whether there may be such classes for one of several methods, by their access flags.
fn any_may_be_bad(flags: &[u16], again: &Method) -> bool
    ensures { result ≡ list_any (may_be_bad (method_of again.now)) flags.now }
{
    flags.iter().any(|flags| may_be_bad(*flags, again))
}

/// The suspects of the method of a file.
pub(crate) fn suspects_of(
    set: &ClassSet,
    methods: &DeclaredMethods,
    file: &ClassFile,
    again: &Method,
) -> Suspects
    requires { AreDeclaredIn set.now methods.now }
    ensures { AreSuspects set.now methods.now (file_of file.now) (method_of again.now) result }
{
    if !methods.is_whole {
        return Suspects::All;
    }
    let name = file.pool.text(again.name);
    let descriptor = file.pool.text(again.descriptor);
    let Some(number) = number_of(&methods.table, name, descriptor) else {
        return Suspects::None;
    };
    if any_may_be_bad(flags_of(&methods.table, number), again) {
        Suspects::Of { number }
    } else {
        Suspects::None
    }
}

/// Whether the class of a name is one of them.
pub(crate) fn is_suspect(
    set: &ClassSet,
    methods: &DeclaredMethods,
    suspects: Suspects,
    file: &ClassFile,
    again: &Method,
    superclass: &[u8],
) -> bool
    requires { AreSuspects set.now methods.now (file_of file.now) (method_of again.now) suspects }
    ensures { result ≡ false
        → redeclares_in is_bad_redeclaration set.now (file_of file.now) (method_of again.now) superclass.now ≡ false }
{
    let number = match suspects {
        Suspects::All => return true,
        Suspects::None => return false,
        Suspects::Of { number } => number,
    };
    let Some(place) = set.place_of(superclass) else {
        return false;
    };
    match flags_at(&methods.table, place, number) {
        Some(flags) => {
            !has(flags, PRIVATE) && is_bad_redeclaration(superclass, flags, class_name(file), again)
        }
        None => false,
    }
}
