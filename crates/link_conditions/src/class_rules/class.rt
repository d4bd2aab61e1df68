//! The rules of a class's superclass and superinterfaces (JVMS 4.1).

ghost use Rattle.std.specs.Prelude.{◌≡◌};
ghost use Rattle.model.specs.Classes.{Program};
ghost use Rattle.model.specs.Hierarchy.{extends_interface, extends_final, is_found_class, implements_class, interface_below_other};
ghost use Rattle.classfile.specs.View.{file_of};
ghost use Rattle.link_conditions.specs.class_rules.Rules.{class_breaks_rule};

use classfile::access_flags::{FINAL, INTERFACE, has};
use classfile::{ClassFile, superclass_name};
use hierarchy::ClassSet;

/// Whether the superclass is an interface.
fn extends_interface(set: &ClassSet, file: &ClassFile) -> bool
    ensures { result ≡ extends_interface set.now (file_of file.now) }
{
    match superclass_name(file) {
        Some(name) => set.is_interface(name),
        None => false,
    }
}

/// Whether the superclass is final.
fn extends_final(set: &ClassSet, file: &ClassFile) -> bool
    ensures { result ≡ extends_final set.now (file_of file.now) }
{
    let Some(name) = superclass_name(file) else {
        return false;
    };
    match set.class_of(name) {
        Some(superclass) => has(superclass.flags, FINAL),
        None => false,
    }
}

/// Whether the class of a name is there and is no interface.
fn is_found_class(set: &ClassSet, name: &[u8]) -> bool
    ensures { result ≡ is_found_class set.now name.now }
{
    match set.class_of(name) {
        Some(class) => !has(class.flags, INTERFACE),
        None => false,
    }
}

/// Whether a direct superinterface is no interface.
fn implements_class(set: &ClassSet, file: &ClassFile) -> bool
    ensures { result ≡ implements_class set.now (file_of file.now) }
{
    for index in &file.interfaces {
        if let Some(name) = file.class_name(*index) {
            if is_found_class(set, name) {
                return true;
            }
        }
    }
    false
}

/// Whether it is an interface whose superclass is another one than Object.
fn is_interface_below_other(file: &ClassFile) -> bool
    ensures { (files : Program) → result ≡ interface_below_other files (file_of file.now) }
{
    if !has(file.flags, INTERFACE) {
        return false;
    }
    match superclass_name(file) {
        Some(name) => name != b"java/lang/Object".as_slice(),
        None => true,
    }
}

/// Whether the class itself breaks a rule, its methods aside.
pub(crate) fn class_breaks_rule(set: &ClassSet, file: &ClassFile) -> bool
    ensures { result ≡ class_breaks_rule set.now (file_of file.now) }
{
    extends_interface(set, file)
        || extends_final(set, file)
        || implements_class(set, file)
        || is_interface_below_other(file)
}
