//! Whether each index names an entry of the kind that it has to name.

ghost use Rattle.std.specs.Prelude.{◌≡◌, ℕ, ◌==◌, ◌&&◌, ◌||◌, List, Bool, map};
ghost use Rattle.std.specs.List.{list_all};
ghost use Rattle.constant_pool.specs.declared.reading.fault.Cause.TheVariants as causes;
ghost use Rattle.model.specs.declared.class_file.ExceptionEntry.{ExceptionEntry};
ghost use Rattle.model.specs.Tree.{Entry, SkippedTree, CodeTree, FieldPart, FieldTree, MethodPart, MethodTree};
ghost use Rattle.model.specs.Conditions.{names_utf8, names_class, names_constant, skipped_indices, exception_indices, code_indices, field_part_indices, field_indices, method_part_indices, method_indices, member_indices, file_indices};
ghost use Rattle.class_tree.specs.View.{skipped_of, code_of, field_part_of, field_of, method_part_of, method_of, file_of};
ghost use Rattle.constant_pool.specs.Checking.{Checks};

use crate::check::{Checked, check_each, require};
use crate::tree::{Attribute, ClassFile, Code, Field, FieldAttribute, Method, MethodAttribute};
use constant_pool::reading::{Cause, Malformed};
use constant_pool::{Constant, Pool, Texts};
use model::ExceptionEntry;

/// Each index names an entry of the kind that it has to name.
pub(crate) struct Indices;

/// Whether a ConstantValue may name the entry (JVMS 4.7.2).
fn names_constant(pool: &Pool, index: u16) -> bool
    ensures { result ≡ names_constant pool.now index }
{
    matches!(
        pool.constant(index),
        Some(
            Constant::Integer(_)
                | Constant::Float(_)
                | Constant::Long(_)
                | Constant::Double(_)
                | Constant::String { .. }
        )
    )
}

/// The index of a Utf8 at the offset `at`.
fn utf8(texts: &Texts<'_>, index: u16, at: usize) -> Result<(), Malformed>
    ensures { Checks causes.Index result (names_utf8 texts.now index) }
{
    require(texts.pool().names_utf8(index), Cause::Index, at)
}

/// The index of a Class at the offset `at`.
fn class(texts: &Texts<'_>, index: u16, at: usize) -> Result<(), Malformed>
    ensures { Checks causes.Index result (names_class texts.now index) }
{
    require(texts.pool().names_class(index), Cause::Index, at)
}

/// An index in the table of interfaces.
impl Checked<Indices> for u16 {
    ghost Tree = { ℕ };

    ghost view = { λ n. n };

    ghost cause = { causes.Index };

    ghost is_met = { λ pool index. names_class pool index };

    fn check(&self, texts: &Texts<'_>, at: usize) -> Result<(), Malformed> {
        class(texts, *self, at)
    }
}

impl Checked<Indices> for Attribute {
    ghost Tree = { SkippedTree };

    ghost view = { λ a. skipped_of a };

    ghost cause = { causes.Index };

    ghost is_met = { λ pool a. skipped_indices pool a };

    fn check(&self, texts: &Texts<'_>, at: usize) -> Result<(), Malformed> {
        utf8(texts, self.name, at)
    }
}

impl Checked<Indices> for ExceptionEntry {
    ghost Tree = { ExceptionEntry };

    ghost view = { λ e. e };

    ghost cause = { causes.Index };

    ghost is_met = { λ pool e. exception_indices pool e };

    fn check(&self, texts: &Texts<'_>, at: usize) -> Result<(), Malformed> {
        if self.catch_type == 0 {
            return Ok(());
        }
        class(texts, self.catch_type, at.saturating_add(6))
    }
}

/// What a Code holds, from max_stack on.
impl Checked<Indices> for Code {
    ghost Tree = { CodeTree };

    ghost view = { λ c. code_of c };

    ghost cause = { causes.Index };

    ghost is_met = { λ pool c. code_indices pool c };

    fn check(&self, texts: &Texts<'_>, at: usize) -> Result<(), Malformed> {
        let exceptions = at.saturating_add(self.code.len()).saturating_add(10);
        let behind = check_each::<Indices, ExceptionEntry>(texts, &self.exceptions, exceptions)?;
        check_each::<Indices, Attribute>(texts, &self.attributes, behind.saturating_add(2))?;
        Ok(())
    }
}

impl Checked<Indices> for FieldAttribute {
    ghost Tree = { FieldPart };

    ghost view = { λ p. field_part_of p };

    ghost cause = { causes.Index };

    ghost is_met = { λ pool p. field_part_indices pool p };

    fn check(&self, texts: &Texts<'_>, at: usize) -> Result<(), Malformed> {
        match self {
            FieldAttribute::ConstantValue { name, index } => {
                utf8(texts, *name, at)?;
                require(
                    names_constant(texts.pool(), *index),
                    Cause::Index,
                    at.saturating_add(6),
                )
            }
            FieldAttribute::Skipped(attribute) => utf8(texts, attribute.name, at),
        }
    }
}

impl Checked<Indices> for MethodAttribute {
    ghost Tree = { MethodPart };

    ghost view = { λ p. method_part_of p };

    ghost cause = { causes.Index };

    ghost is_met = { λ pool p. method_part_indices pool p };

    fn check(&self, texts: &Texts<'_>, at: usize) -> Result<(), Malformed> {
        match self {
            MethodAttribute::Code { name, code } => {
                utf8(texts, *name, at)?;
                code.check(texts, at.saturating_add(6))
            }
            MethodAttribute::Skipped(attribute) => utf8(texts, attribute.name, at),
        }
    }
}

impl Checked<Indices> for Field {
    ghost Tree = { FieldTree };

    ghost view = { λ f. field_of f };

    ghost cause = { causes.Index };

    ghost is_met = { λ pool f. field_indices pool f };

    fn check(&self, texts: &Texts<'_>, at: usize) -> Result<(), Malformed> {
        utf8(texts, self.name, at.saturating_add(2))?;
        utf8(texts, self.descriptor, at.saturating_add(4))?;
        check_each::<Indices, FieldAttribute>(texts, &self.attributes, at.saturating_add(8))?;
        Ok(())
    }
}

impl Checked<Indices> for Method {
    ghost Tree = { MethodTree };

    ghost view = { λ m. method_of m };

    ghost cause = { causes.Index };

    ghost is_met = { λ pool m. method_indices pool m };

    fn check(&self, texts: &Texts<'_>, at: usize) -> Result<(), Malformed> {
        utf8(texts, self.name, at.saturating_add(2))?;
        utf8(texts, self.descriptor, at.saturating_add(4))?;
        check_each::<Indices, MethodAttribute>(texts, &self.attributes, at.saturating_add(8))?;
        Ok(())
    }
}

/// The members of a file, from the offset of the first field on, and its attributes.
fn check_members(texts: &Texts<'_>, file: &ClassFile, at: usize) -> Result<(), Malformed>
    requires { texts.now ≡ file.now.pool }
    ensures { Checks causes.Index result (member_indices (file_of file.now)) }
{
    let behind = check_each::<Indices, Field>(texts, &file.fields, at)?;
    let behind = check_each::<Indices, Method>(texts, &file.methods, behind.saturating_add(2))?;
    check_each::<Indices, Attribute>(texts, &file.attributes, behind.saturating_add(2))?;
    Ok(())
}

/// The indices of the whole file.
pub(crate) fn check_indices(texts: &Texts<'_>, file: &ClassFile) -> Result<(), Malformed>
    requires { texts.now ≡ file.now.pool }
    ensures { Checks causes.Index result (file_indices (file_of file.now)) }
{
    let pool = &file.pool;
    pool.check_indices(8)?;
    let behind = pool.length().saturating_add(10);
    class(texts, file.this_class, behind.saturating_add(2))?;
    class(texts, file.super_class, behind.saturating_add(4))?;
    let interfaces = behind.saturating_add(8);
    let behind = check_each::<Indices, u16>(texts, &file.interfaces, interfaces)?;
    check_members(texts, file, behind.saturating_add(2))
}
