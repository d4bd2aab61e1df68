//! Whether each name is one (JVMS 4.2).

ghost use Rattle.std.specs.Prelude.{◌≡◌, ◌==◌, ◌&&◌, ◌||◌, ℕ, List, Bool};
ghost use Rattle.std.specs.List.{list_all};
ghost use Rattle.constant_pool.specs.declared.reading.fault.Cause.TheVariants as causes;
ghost use Rattle.model.specs.Descriptors as descriptors;
ghost use Rattle.model.specs.Conditions as conditions;
ghost use Rattle.constant_pool.specs.View.{entry_of};
ghost use Rattle.constant_pool.specs.Checking.{Checks};
ghost use Rattle.constant_pool.specs.Texts.{kind_of};

use crate::condition::{Condition, check_entries, require};
use crate::constant::Constant;
use crate::descriptors::is_unqualified_name;
use crate::kind::TextKind;
use crate::reading::{Cause, Malformed};
use crate::texts::Texts;

/// Each name is one.
#[derive(Drop)]
struct Names<'a, 'b>(&'a Texts<'b>);

fn is_method_byte(byte: u8) -> bool
    ensures { result ≡ conditions.is_method_byte byte }
{
    !matches!(byte, b'<' | b'>')
}

fn are_method_bytes(name: &[u8]) -> bool
    ensures { result ≡ list_all conditions.is_method_byte name.now }
{
    name.iter().all(|&byte| is_method_byte(byte))
}

/// Whether a method may have a name that is an unqualified one or is not.
pub(crate) fn is_name_of_method(name: &[u8], is_unqualified: bool) -> bool
    requires { is_unqualified ≡ descriptors.is_unqualified name.now }
    ensures { result ≡ conditions.is_method_name name.now }
{
    name == b"<init>".as_slice()
        || name == b"<clinit>".as_slice()
        || is_unqualified && are_method_bytes(name)
}

/// Whether a method may have the name (JVMS 4.2.2).
pub fn is_method_name(name: &[u8]) -> bool
    ensures { result ≡ conditions.is_method_name name.now }
{
    is_name_of_method(name, is_unqualified_name(name))
}

/// Whether the member of this descriptor may have the name.
fn is_member_name(name: TextKind, descriptor: TextKind) -> bool
    ensures { (n d : List ℕ) → name ≡ kind_of n → descriptor ≡ kind_of d → result ≡ conditions.is_member_name n d }
{
    if descriptor.begins_as_method {
        name.is_method_name
    } else {
        name.is_unqualified
    }
}

impl Condition for Names<'_, '_> {
    ghost cause = { causes.Name };

    ghost is_met = { λ names e. conditions.entry_names names.0.now e };

    fn check(&self, constant: &Constant, at: usize) -> Result<(), Malformed> {
        let texts = self.0;
        let is_met = match constant {
            Constant::Class { name } => texts.kind(*name).is_class_or_array,
            Constant::NameAndType { name, descriptor } => {
                is_member_name(texts.kind(*name), texts.kind(*descriptor))
            }
            _ => true,
        };
        require(is_met, Cause::Name, at.saturating_add(1))
    }
}

impl Texts<'_> {
    /// Whether each name that a Class or a NameAndType of the pool has is one. The pool begins at the offset `at`; the
    /// fault is `Name` at the first index that names none.
    pub fn check_names(&self, at: usize) -> Result<(), Malformed>
        ensures { Checks causes.Name result (list_all (conditions.entry_names self.now) self.now) }
    {
        check_entries(&Names(self), self.pool().constants(), at)
    }
}
