//! The texts of a pool, each looked at once.

ghost use Rattle.std.specs.Prelude.{◌≡◌, List, [], map, slice_index_or, IfOk};
ghost use Rattle.model.specs.Tree.{Entry};
ghost use Rattle.model.specs.Conditions.{text_at};
ghost use Rattle.constant_pool.specs.View.{entries_of};
ghost use Rattle.constant_pool.specs.Texts.{texts, kind_of};

use crate::constant::Constant;
use crate::kind::{TextKind, kind_of};
use crate::pool::Pool;
use std::alloc::{AllocError, Global};
use std::marker::Model;

/// A pool, and what the text of each index is. Contracts see the entries of the pool.
#[derive(Drop)]
pub struct Texts<'a> {
    pool: &'a Pool,
    kinds: Vec<TextKind>,
}

impl<'a> Model for Texts<'a> {
    ghost use Rattle.std.specs.Prelude.{◌≡◌, List, map};
    ghost use Rattle.model.specs.Tree.{Entry};
    ghost use Rattle.constant_pool.specs.Texts.{texts, kind_of};

    ghost Value = { List Entry };

    ghost view = { λ t. t.pool.now };

    ghost invariant = { λ t. t.kinds.items ≡ map kind_of (texts t.pool.now) };
}

/// What the text of each index is, from 0 on.
fn kinds_of(alloc: Global, constants: &[Constant]) -> Result<Vec<TextKind>, AllocError>
    ensures { IfOk result (λ kinds. kinds.items ≡ map kind_of (texts (entries_of constants.now))) }
{
    let mut kinds = Vec::with_capacity(alloc, constants.len() + 1)?;
    kinds.push(kind_of(&[]))?;
    'constants: for constant in constants {
        kinds.push(kind_of(constant.text()))?;
    }
    Ok(kinds)
}

/// The kind at an index, or that of no bytes.
fn kind_at(kinds: &[TextKind], index: u16) -> TextKind
    ensures { result ≡ slice_index_or kinds.now index (kind_of []) }
{
    match kinds.get(index as usize).copied() {
        Some(kind) => kind,
        None => kind_of(&[]),
    }
}

impl<'a> Texts<'a> {
    /// The texts of a pool. Each is looked at once.
    pub fn new(alloc: Global, pool: &'a Pool) -> Result<Texts<'a>, AllocError>
        ensures { IfOk result (λ texts. texts ≡ pool.now) }
    {
        let kinds = kinds_of(alloc, pool.constants())?;
        Ok(Texts { pool, kinds })
    }

    /// The pool.
    pub fn pool(&self) -> &Pool
        ensures { result.now ≡ self.now }
    {
        self.pool
    }

    /// What the text of an index is. The text is empty where the index names no Utf8.
    pub fn kind(&self, index: u16) -> TextKind
        ensures { result ≡ kind_of (text_at self.now index) }
    {
        kind_at(&self.kinds, index)
    }
}
