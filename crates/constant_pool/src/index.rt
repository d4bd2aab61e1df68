//! Whether each index names an entry of the kind that it has to name (JVMS 4.4).

ghost use Rattle.std.specs.Prelude.{◌≡◌, ◌&&◌, List};
ghost use Rattle.std.specs.List.{list_all};
ghost use Rattle.constant_pool.specs.declared.reading.fault.Cause.TheVariants as causes;
ghost use Rattle.model.specs.Conditions as conditions;
ghost use Rattle.constant_pool.specs.View.{entry_of};
ghost use Rattle.constant_pool.specs.Checking.{Checks};

use crate::condition::{Condition, check_entries, require};
use crate::constant::Constant;
use crate::pool::Pool;
use crate::reading::{Cause, Malformed};

/// Each index names an entry of the kind that it has to name.
#[derive(Drop)]
struct Indices<'a>(&'a Pool);

impl Pool {
    /// Whether the index names a Utf8.
    pub fn names_utf8(&self, index: u16) -> bool
        ensures { result ≡ conditions.names_utf8 self.now index }
    {
        matches!(self.constant(index), Some(Constant::Utf8(_)))
    }

    /// Whether the index names a Class.
    pub fn names_class(&self, index: u16) -> bool
        ensures { result ≡ conditions.names_class self.now index }
    {
        matches!(self.constant(index), Some(Constant::Class { .. }))
    }

    fn names_name_and_type(&self, index: u16) -> bool
        ensures { result ≡ conditions.names_name_and_type self.now index }
    {
        matches!(self.constant(index), Some(Constant::NameAndType { .. }))
    }

    /// Whether each index in an entry of the pool names an entry of the kind that it has to name. The pool begins at
    /// the offset `at`; the fault is `Index` at the first index that does not.
    pub fn check_indices(&self, at: usize) -> Result<(), Malformed>
        ensures { Checks causes.Index result (list_all (conditions.entry_indices self.now) self.now) }
    {
        check_entries(&Indices(self), self.constants(), at)
    }
}

/// The index of a Utf8 at the offset `at`.
fn utf8(pool: &Pool, index: u16, at: usize) -> Result<(), Malformed>
    ensures { Checks causes.Index result (conditions.names_utf8 pool.now index) }
{
    require(pool.names_utf8(index), Cause::Index, at)
}

/// The indices of a Class and of a NameAndType.
fn reference(pool: &Pool, class: u16, name_and_type: u16, at: usize) -> Result<(), Malformed>
    ensures { Checks causes.Index result (conditions.names_class pool.now class
        && conditions.names_name_and_type pool.now name_and_type) }
{
    require(pool.names_class(class), Cause::Index, at)?;
    require(
        pool.names_name_and_type(name_and_type),
        Cause::Index,
        at.saturating_add(2),
    )
}

/// The indices of two Utf8.
fn name_and_descriptor(pool: &Pool, name: u16, descriptor: u16, at: usize) -> Result<(), Malformed>
    ensures { Checks causes.Index result (conditions.names_utf8 pool.now name
        && conditions.names_utf8 pool.now descriptor) }
{
    utf8(pool, name, at)?;
    utf8(pool, descriptor, at.saturating_add(2))
}

impl Condition for Indices<'_> {
    ghost cause = { causes.Index };

    ghost is_met = { λ indices e. conditions.entry_indices indices.0.now e };

    fn check(&self, constant: &Constant, at: usize) -> Result<(), Malformed> {
        let pool = self.0;
        let index = at.saturating_add(1);
        match constant {
            Constant::Class { name } => utf8(pool, *name, index),
            Constant::String { text } => utf8(pool, *text, index),
            Constant::Field {
                class,
                name_and_type,
            }
            | Constant::Method {
                class,
                name_and_type,
            }
            | Constant::InterfaceMethod {
                class,
                name_and_type,
            } => reference(pool, *class, *name_and_type, index),
            Constant::NameAndType { name, descriptor } => {
                name_and_descriptor(pool, *name, *descriptor, index)
            }
            _ => Ok(()),
        }
    }
}
