//! Methods whose descriptor or flags are outside of the profile.

ghost use Rattle.std.specs.Prelude.{◌≡◌};
ghost use Rattle.model.specs.Names.{name_eq, constructor_name, initialiser_name};
ghost use Rattle.model.specs.Conditions.{text_at};
ghost use Rattle.model.specs.Profile.{is_constructor, is_initialiser, contradicts_abstract, contradicts_constructor, is_public_abstract, constructor_with_result, concrete_method_of_interface, initialiser_of_other_descriptor, method_outside_profile};
ghost use Rattle.model.specs.CodeConditions.{entry_slots};
ghost use Rattle.classfile.specs.View.{method_of, file_of};
ghost use Rattle.classfile.specs.profile.Descriptions.{rows_of};

use crate::access_flags::{ABSTRACT, FINAL, NATIVE, PRIVATE, PUBLIC, STATIC, SYNCHRONIZED, has};
use crate::profile::described::{Described, text_says};
use crate::{ClassFile, Method};

/// Whether the text of an index is this one.
fn is_text(file: &ClassFile, index: u16, text: &[u8]) -> bool
    ensures { result ≡ name_eq (text_at file.now.pool index) text.now }
{
    file.pool.text(index) == text
}

fn is_constructor(file: &ClassFile, method: &Method) -> bool
    ensures { result ≡ is_constructor (file_of file.now) (method_of method.now) }
{
    is_text(file, method.name, b"<init>")
}

fn is_initialiser(file: &ClassFile, method: &Method) -> bool
    ensures { result ≡ is_initialiser (file_of file.now) (method_of method.now) }
{
    is_text(file, method.name, b"<clinit>")
}

/// Whether a method has a flag that contradicts ACC_ABSTRACT (JVMS 4.6).
fn contradicts_abstract(method: &Method) -> bool
    ensures { result ≡ contradicts_abstract (method_of method.now) }
{
    let flags = method.flags;
    has(flags, STATIC)
        || has(flags, FINAL)
        || has(flags, PRIVATE)
        || has(flags, NATIVE)
        || has(flags, SYNCHRONIZED)
}

/// Whether a method has a flag that a constructor must not have (JVMS 4.6).
fn contradicts_constructor(method: &Method) -> bool
    ensures { result ≡ contradicts_constructor (method_of method.now) }
{
    let flags = method.flags;
    has(flags, STATIC)
        || has(flags, FINAL)
        || has(flags, ABSTRACT)
        || has(flags, NATIVE)
        || has(flags, SYNCHRONIZED)
}

fn is_public_abstract(method: &Method) -> bool
    ensures { result ≡ is_public_abstract (method_of method.now) }
{
    let flags = method.flags;
    has(flags, PUBLIC) && !has(flags, PRIVATE) && has(flags, ABSTRACT)
}

/// Whether an initialiser has another descriptor than `()V`.
fn is_other_initialiser(file: &ClassFile, method: &Method) -> bool
    ensures { result ≡ initialiser_of_other_descriptor (file_of file.now) (method_of method.now) }
{
    is_initialiser(file, method) && !is_text(file, method.descriptor, b"()V")
}

/// Whether a constructor returns a value.
fn returns_from_constructor(file: &ClassFile, rows: &[Described], method: &Method) -> bool
    requires { rows.now ≡ rows_of file.now.pool }
    ensures { result ≡ constructor_with_result (file_of file.now) (method_of method.now) }
{
    is_constructor(file, method) && !text_says(file, rows, method.descriptor).returns_void
}

/// Whether a method of an interface has code or is hidden, its initialiser aside.
fn is_concrete_in_interface(file: &ClassFile, method: &Method) -> bool
    ensures { result ≡ concrete_method_of_interface (file_of file.now) (method_of method.now) }
{
    file.is_interface() && !is_initialiser(file, method) && !is_public_abstract(method)
}

/// Whether the descriptor or the flags of a method are outside of the profile.
pub(crate) fn is_outside(file: &ClassFile, rows: &[Described], method: &Method) -> bool
    requires { rows.now ≡ rows_of file.now.pool }
    ensures { result ≡ method_outside_profile (file_of file.now) (method_of method.now) }
{
    text_says(file, rows, method.descriptor).leaves_out
        || has(method.flags, NATIVE)
        || is_other_initialiser(file, method)
        || is_initialiser(file, method) && has(method.flags, ABSTRACT)
        || returns_from_constructor(file, rows, method)
        || has(method.flags, ABSTRACT) && contradicts_abstract(method)
        || is_constructor(file, method) && contradicts_constructor(method)
        || is_concrete_in_interface(file, method)
}

/// The slots of the arguments of a method, with that of its receiver; an initialiser has none.
pub(crate) fn entry_slots(file: &ClassFile, rows: &[Described], method: &Method) -> u16
    requires { rows.now ≡ rows_of file.now.pool }
    ensures { result ≡ entry_slots (file_of file.now) (method_of method.now) }
{
    let slots = u16::from(text_says(file, rows, method.descriptor).slots);
    if is_initialiser(file, method) || has(method.flags, STATIC) {
        slots
    } else {
        slots + 1
    }
}
