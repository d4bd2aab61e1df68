//! Instructions near by: what such a one has merged into its handlers is not merged again.

ghost use Rattle.std.specs.Prelude.{◌≡◌, IfOk, IfSome};
ghost use Rattle.verifier.specs.Changes.{PartsDiffer};
ghost use Rattle.verifier.specs.Agreeing.{AgreeBut};
ghost use Rattle.verifier.specs.Near.{IsNear};

use crate::found::Found;
use crate::packed::PackedFrame;
use crate::run::is_same_type;
use std::alloc::{AllocError, Global};
use types::VerificationType;

/// How many local variables may differ at most.
const MOST_CHANGES: usize = 8;

/// How many local variables are compared before all of them are written down.
const FIRST: usize = 32;

/// An instruction all of whose leads are merged, by its offset, and the local variables that have changed since it.
#[derive(Drop)]
pub(crate) struct Near {
    pub offset: usize,
    pub changed: Vec<usize>,
}

/// Where types differ, if it is at few places.
fn places_between(
    alloc: Global,
    from: &[VerificationType],
    to: &[VerificationType],
) -> Result<Option<Vec<usize>>, AllocError>
    ensures { IfOk result (λ o. IfSome o (λ v. AgreeBut v.items from.now to.now)) }
{
    let mut places = Vec::new(alloc);
    if from.len() != to.len() {
        return Ok(None);
    }
    'locals: for local in 0..to.len() {
        if !is_same_type(to[local], from[local]) {
            if places.len() >= MOST_CHANGES {
                return Ok(None);
            }
            places.push(local)?;
        }
    }
    Ok(Some(places))
}

/// Whether frame types differ in too many of their first local variables.
fn differ_soon(from: &PackedFrame, to: &PackedFrame) -> bool {
    let mut count = 0usize;
    'first: for local in 0..FIRST {
        if !is_same_type(from.local_at(local), to.local_at(local)) {
            count = count.saturating_add(1);
        }
    }
    count > MOST_CHANGES
}

/// In which local variables frame types differ, if in few.
fn locals_between(
    alloc: Global,
    from: &PackedFrame,
    to: &PackedFrame,
) -> Result<Option<Vec<usize>>, AllocError>
    ensures locals { IfOk result (λ o. IfSome o (λ v. AgreeBut v.items from.now.locals to.now.locals)) }
    ensures constructed { IfOk result (λ o. IfSome o (λ v. from.now.constructed ≡ to.now.constructed)) }
{
    if !from.is_as_constructed(to) {
        return Ok(None);
    }
    if let Some(before) = from.each_local()
        && let Some(after) = to.each_local()
    {
        return places_between(alloc, before, after);
    }
    if differ_soon(from, to) {
        return Ok(None);
    }
    let before = from.locals(alloc)?;
    let after = to.locals(alloc)?;
    places_between(alloc, &before, &after)
}

/// In which local variables frame types differ that have the same stack, if in few.
pub(crate) fn changes_between(
    alloc: Global,
    from: &PackedFrame,
    to: &PackedFrame,
) -> Result<Option<Vec<usize>>, AllocError>
    ensures { IfOk result (λ o. IfSome o (λ v. PartsDiffer v.items from.now to.now)) }
{
    if from.is_same(to) {
        return Ok(Some(Vec::new(alloc)));
    }
    if !from.has_same_stack(to) {
        return Ok(None);
    }
    locals_between(alloc, from, to)
}

/// The instruction at an offset, if it is near to one with this frame type before it.
pub(crate) fn near_found(
    alloc: Global,
    found: &Found,
    before: &PackedFrame,
    offset: usize,
) -> Result<Option<Near>, AllocError>
    ensures near { IfOk result (λ o. IfSome o (IsNear found.now before.now)) }
    ensures offset { IfOk result (λ o. IfSome o (λ near. near.offset ≡ offset)) }
{
    if found.waiting.has(offset) || offset >= found.types.len() {
        return Ok(None);
    }
    let Some(other) = &found.types[offset] else {
        return Ok(None);
    };
    match locals_between(alloc, other, before)? {
        Some(changed) => Ok(Some(Near { offset, changed })),
        None => Ok(None),
    }
}
