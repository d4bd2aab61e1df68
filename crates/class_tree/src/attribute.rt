//! Whether each Code and each ConstantValue stands where it has to (JVMS 4.7.2, 4.7.3).

ghost use Rattle.std.specs.Prelude.{◌≡◌, ◌+◌, ◌==◌, ◌&&◌, ◌||◌, ℕ, List, Bool, length, map};
ghost use Rattle.std.specs.List.{list_all, count_by};
ghost use Rattle.constant_pool.specs.declared.reading.fault.Cause.TheVariants as causes;
ghost use Rattle.model.specs.Tree.{Entry, FieldPart, FieldTree, MethodPart, MethodTree};
ghost use Rattle.model.specs.Spelling.{entry_at, text_of};
ghost use Rattle.model.specs.Conditions.{has_code, is_code_part, is_constant_part, has_code_by_flags, is_constant_of, constant_fits, field_constants, file_attributes};
ghost use Rattle.class_tree.specs.View.{field_part_of, field_of, method_part_of, method_of, file_of};
ghost use Rattle.constant_pool.specs.Checking.{Checks};
ghost use Rattle.constant_pool.specs.View.{entry_of};

use crate::access_flags::{ABSTRACT, NATIVE};
use crate::check::{Checked, check_each, require};
use crate::spelled::Spelled;
use crate::tree::{ClassFile, Field, FieldAttribute, Method, MethodAttribute};
use constant_pool::reading::{Cause, Malformed};
use constant_pool::{Constant, Pool, Texts};

/// Each Code and each ConstantValue stands where it has to.
pub(crate) struct Attributes;

/// Whether a method of these access flags has a Code: it is neither native nor abstract.
fn has_code(flags: u16) -> bool
    ensures { result ≡ has_code flags }
{
    flags / NATIVE % 2 == 0 && flags / ABSTRACT % 2 == 0
}

impl MethodAttribute {
    pub(crate) fn is_code(&self) -> bool
        ensures { result ≡ is_code_part (method_part_of self.now) }
    {
        matches!(self, MethodAttribute::Code { .. })
    }
}

impl Method {
    fn code_count(&self) -> usize
        ensures { result ≡ count_by is_code_part (method_of self.now).parts }
    {
        self.attributes.iter().filter(|part| part.is_code()).count()
    }

    /// Where the fault of a method stands whose Codes are too many or too few. It begins at the offset `at`.
    fn code_fault(&self, at: usize) -> usize {
        let mut left = if has_code(self.flags) { 1 } else { 0 };
        let mut place = at.saturating_add(8);
        for part in &self.attributes {
            if part.is_code() {
                if left == 0 {
                    return place;
                }
                left = 0;
            }
            place = place.saturating_add(part.length());
        }
        at
    }
}

impl Checked<Attributes> for Method {
    ghost Tree = { MethodTree };

    ghost view = { λ m. method_of m };

    ghost cause = { causes.Attribute };

    ghost is_met = { λ _ m. has_code_by_flags m };

    /// A Code that is missing is a fault of the method, one too many a fault at its name.
    fn check(&self, _texts: &Texts<'_>, at: usize) -> Result<(), Malformed> {
        let wanted = if has_code(self.flags) { 1 } else { 0 };
        require(
            self.code_count() == wanted,
            Cause::Attribute,
            self.code_fault(at),
        )
    }
}

/// Whether a field of this descriptor may have a constant of this kind.
fn is_constant_of(descriptor: &[u8], constant: &Constant) -> bool
    ensures { result ≡ is_constant_of descriptor.now (entry_of constant.now) }
{
    match constant {
        Constant::Integer(_) => {
            descriptor == b"I".as_slice()
                || descriptor == b"S".as_slice()
                || descriptor == b"C".as_slice()
                || descriptor == b"B".as_slice()
                || descriptor == b"Z".as_slice()
        }
        Constant::Float(_) => descriptor == b"F".as_slice(),
        Constant::Long(_) => descriptor == b"J".as_slice(),
        Constant::Double(_) => descriptor == b"D".as_slice(),
        Constant::String { .. } => descriptor == b"Ljava/lang/String;".as_slice(),
        _ => false,
    }
}

fn names_constant_of(pool: &Pool, descriptor: &[u8], index: u16) -> bool
    ensures { result ≡ is_constant_of descriptor.now (entry_at pool.now index) }
{
    match pool.constant(index) {
        Some(constant) => is_constant_of(descriptor, constant),
        None => false,
    }
}

impl FieldAttribute {
    fn is_constant(&self) -> bool
        ensures { result ≡ is_constant_part (field_part_of self.now) }
    {
        matches!(self, FieldAttribute::ConstantValue { .. })
    }

    /// Whether a field of this descriptor may have the attribute.
    fn fits(&self, pool: &Pool, descriptor: &[u8]) -> bool
        ensures { result ≡ constant_fits pool.now descriptor.now (field_part_of self.now) }
    {
        match self {
            FieldAttribute::ConstantValue { index, .. } => names_constant_of(
                pool, descriptor, *index,
            ),
            FieldAttribute::Skipped(_) => true,
        }
    }
}

/// Whether a field of this descriptor may have each of the attributes.
fn constants_fit(pool: &Pool, descriptor: &[u8], parts: &[FieldAttribute]) -> bool
    ensures { result ≡ list_all (constant_fits pool.now descriptor.now) (map field_part_of parts.now) }
{
    'parts: for part in parts {
        if !part.fits(pool, descriptor) {
            return false;
        }
    }
    true
}

impl Field {
    fn constant_count(&self) -> usize
        ensures { result ≡ count_by is_constant_part (field_of self.now).parts }
    {
        self.attributes
            .iter()
            .filter(|part| part.is_constant())
            .count()
    }

    /// Where the fault of a field stands whose ConstantValue is another or not the only one. It begins at the offset
    /// `at`.
    fn constant_fault(&self, pool: &Pool, descriptor: &[u8], at: usize) -> usize {
        let mut is_second = false;
        let mut place = at.saturating_add(8);
        for part in &self.attributes {
            if part.is_constant() {
                if is_second {
                    return place;
                }
                if !part.fits(pool, descriptor) {
                    return place.saturating_add(6);
                }
                is_second = true;
            }
            place = place.saturating_add(part.length());
        }
        at
    }
}

impl Checked<Attributes> for Field {
    ghost Tree = { FieldTree };

    ghost view = { λ f. field_of f };

    ghost cause = { causes.Attribute };

    ghost is_met = { λ pool f. field_constants pool f };

    /// A second ConstantValue is a fault at its name, one of another kind at its index.
    fn check(&self, texts: &Texts<'_>, at: usize) -> Result<(), Malformed> {
        let pool = texts.pool();
        let descriptor = pool.text(self.descriptor);
        let is_met = self.constant_count() <= 1
            && constants_fit(pool, descriptor, &self.attributes);
        require(
            is_met,
            Cause::Attribute,
            self.constant_fault(pool, descriptor, at),
        )
    }
}

/// The attributes of the members, of which the first begins at the offset `at`.
pub(crate) fn check_attributes(
    texts: &Texts<'_>,
    file: &ClassFile,
    at: usize,
) -> Result<(), Malformed>
    requires { texts.now ≡ file.now.pool }
    ensures { Checks causes.Attribute result (file_attributes (file_of file.now)) }
{
    let behind = check_each::<Attributes, Field>(texts, &file.fields, at)?;
    check_each::<Attributes, Method>(texts, &file.methods, behind.saturating_add(2))?;
    Ok(())
}
