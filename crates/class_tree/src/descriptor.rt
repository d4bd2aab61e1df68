//! Whether each descriptor is one, of the kind that is asked for (JVMS 4.3).

ghost use Rattle.std.specs.Prelude.{◌≡◌, ℕ, ◌==◌, ◌&&◌, ◌||◌, List, Bool};
ghost use Rattle.std.specs.List.{list_all};
ghost use Rattle.constant_pool.specs.declared.reading.fault.Cause.TheVariants as causes;
ghost use Rattle.model.specs.Tree.{Entry, FieldTree, MethodTree};
ghost use Rattle.model.specs.Conditions.{is_field_described, slots_fit, is_method_described, member_descriptors, file_descriptors};
ghost use Rattle.class_tree.specs.View.{field_of, method_of, file_of};
ghost use Rattle.constant_pool.specs.Checking.{Checks};

use crate::access_flags::STATIC;
use crate::check::{Checked, check_each, require};
use crate::place::first_field;
use crate::tree::{ClassFile, Field, Method};
use constant_pool::Texts;
use constant_pool::reading::{Cause, Malformed};

/// Each descriptor is one, of the kind that is asked for.
pub(crate) struct Descriptors;

impl Checked<Descriptors> for Field {
    ghost Tree = { FieldTree };

    ghost view = { λ f. field_of f };

    ghost cause = { causes.Descriptor };

    ghost is_met = { λ pool f. is_field_described pool f };

    fn check(&self, texts: &Texts<'_>, at: usize) -> Result<(), Malformed> {
        let is_met = texts.kind(self.descriptor).is_field_descriptor;
        require(is_met, Cause::Descriptor, at.saturating_add(4))
    }
}

/// Whether a method of these access flags may have so many slots of parameters.
fn slots_fit(flags: u16, slots: Option<u8>) -> bool
    ensures { result ≡ slots_fit flags slots }
{
    match slots {
        Some(slots) => flags / STATIC % 2 == 1 || slots < 255,
        None => false,
    }
}

impl Checked<Descriptors> for Method {
    ghost Tree = { MethodTree };

    ghost view = { λ m. method_of m };

    ghost cause = { causes.Descriptor };

    ghost is_met = { λ pool m. is_method_described pool m };

    fn check(&self, texts: &Texts<'_>, at: usize) -> Result<(), Malformed> {
        let is_met = slots_fit(self.flags, texts.kind(self.descriptor).method_slots);
        require(is_met, Cause::Descriptor, at.saturating_add(4))
    }
}

/// The descriptors of the members, from the offset of the first field on.
fn check_members(texts: &Texts<'_>, file: &ClassFile, at: usize) -> Result<(), Malformed>
    requires { texts.now ≡ file.now.pool }
    ensures { Checks causes.Descriptor result (member_descriptors (file_of file.now)) }
{
    let behind = check_each::<Descriptors, Field>(texts, &file.fields, at)?;
    check_each::<Descriptors, Method>(texts, &file.methods, behind.saturating_add(2))?;
    Ok(())
}

/// The descriptors of the whole file.
pub(crate) fn check_descriptors(texts: &Texts<'_>, file: &ClassFile) -> Result<(), Malformed>
    requires { texts.now ≡ file.now.pool }
    ensures { Checks causes.Descriptor result (file_descriptors (file_of file.now)) }
{
    texts.check_descriptors(8)?;
    check_members(texts, file, first_field(file))
}
