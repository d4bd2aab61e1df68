//! Whether each name is one (JVMS 4.2).

ghost use Rattle.std.specs.Prelude.{◌≡◌, ℕ, ◌==◌, ◌&&◌, ◌||◌, List, Bool};
ghost use Rattle.std.specs.List.{list_all};
ghost use Rattle.constant_pool.specs.declared.reading.fault.Cause.TheVariants as causes;
ghost use Rattle.model.specs.Tree.{Entry, FieldTree, MethodTree};
ghost use Rattle.model.specs.Spelling.{entry_at};
ghost use Rattle.model.specs.Conditions.{names_no_array, is_field_named, is_method_named, member_names, file_names};
ghost use Rattle.class_tree.specs.View.{field_of, method_of, file_of};
ghost use Rattle.constant_pool.specs.Checking.{Checks};

use crate::check::{Checked, check_each, require};
use crate::tree::{ClassFile, Field, Method};
use constant_pool::reading::{Cause, Malformed};
use constant_pool::{Constant, Texts};

/// Each name is one.
pub(crate) struct Names;

/// Whether the index names a Class that is no array.
fn names_no_array(texts: &Texts<'_>, index: u16) -> bool
    ensures { result ≡ names_no_array texts.now index }
{
    match texts.pool().constant(index) {
        Some(Constant::Class { name }) => texts.kind(*name).is_class_name,
        _ => false,
    }
}

/// The index of a Class that is no array, at the offset `at`.
fn class(texts: &Texts<'_>, index: u16, at: usize) -> Result<(), Malformed>
    ensures { Checks causes.Name result (names_no_array texts.now index) }
{
    require(names_no_array(texts, index), Cause::Name, at)
}

/// An index in the table of interfaces.
impl Checked<Names> for u16 {
    ghost Tree = { ℕ };

    ghost view = { λ n. n };

    ghost cause = { causes.Name };

    ghost is_met = { λ pool index. names_no_array pool index };

    fn check(&self, texts: &Texts<'_>, at: usize) -> Result<(), Malformed> {
        class(texts, *self, at)
    }
}

impl Checked<Names> for Field {
    ghost Tree = { FieldTree };

    ghost view = { λ f. field_of f };

    ghost cause = { causes.Name };

    ghost is_met = { λ pool f. is_field_named pool f };

    fn check(&self, texts: &Texts<'_>, at: usize) -> Result<(), Malformed> {
        let is_met = texts.kind(self.name).is_unqualified;
        require(is_met, Cause::Name, at.saturating_add(2))
    }
}

impl Checked<Names> for Method {
    ghost Tree = { MethodTree };

    ghost view = { λ m. method_of m };

    ghost cause = { causes.Name };

    ghost is_met = { λ pool m. is_method_named pool m };

    fn check(&self, texts: &Texts<'_>, at: usize) -> Result<(), Malformed> {
        let is_met = texts.kind(self.name).is_method_name;
        require(is_met, Cause::Name, at.saturating_add(2))
    }
}

/// The names of the members, from the offset of the first field on.
fn check_members(texts: &Texts<'_>, file: &ClassFile, at: usize) -> Result<(), Malformed>
    requires { texts.now ≡ file.now.pool }
    ensures { Checks causes.Name result (member_names (file_of file.now)) }
{
    let behind = check_each::<Names, Field>(texts, &file.fields, at)?;
    check_each::<Names, Method>(texts, &file.methods, behind.saturating_add(2))?;
    Ok(())
}

/// The names of the whole file.
pub(crate) fn check_names(texts: &Texts<'_>, file: &ClassFile) -> Result<(), Malformed>
    requires { texts.now ≡ file.now.pool }
    ensures { Checks causes.Name result (file_names (file_of file.now)) }
{
    texts.check_names(8)?;
    let behind = file.pool.length().saturating_add(10);
    class(texts, file.this_class, behind.saturating_add(2))?;
    class(texts, file.super_class, behind.saturating_add(4))?;
    let interfaces = behind.saturating_add(8);
    let behind = check_each::<Names, u16>(texts, &file.interfaces, interfaces)?;
    check_members(texts, file, behind.saturating_add(2))
}
