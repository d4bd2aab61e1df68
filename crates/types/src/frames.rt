//! The order and the join of frame types (JVMS 4.10.2.2).

ghost use Rattle.std.specs.Prelude.{◌≡◌, ◌&&◌, map, option_map, reverse, Some, IfOk};
ghost use Rattle.model.specs.TypeOrder.{pairwise, is_mark_below, is_stack_below, is_local_below, is_frame_below};
ghost use Rattle.model.specs.TypeJoin.{join_pairwise, stack_join, local_join, frame_join};
ghost use Rattle.types.specs.View.{type_in, frame_in};
ghost use Rattle.types.specs.Superclasses.{HasSuperclasses};

use crate::frame_type::FrameType;
use crate::join::{local_join, stack_join};
use crate::order::{is_local_below, is_stack_below};
use crate::verification_type::VerificationType;
use hierarchy::ClassSet;
use std::alloc::{AllocError, Global};

fn are_locals_below(set: &ClassSet, a: &[VerificationType], b: &[VerificationType]) -> bool
    ensures { result ≡ pairwise (is_local_below set.now) (map (type_in set.now) a.now) (map (type_in set.now) b.now) }
{
    if a.len() != b.len() {
        return false;
    }
    for i in 0..a.len() {
        if !is_local_below(set, a[i], b[i]) {
            return false;
        }
    }
    true
}

fn is_stack_of_types_below(set: &ClassSet, a: &[VerificationType], b: &[VerificationType]) -> bool
    ensures { result ≡ pairwise (is_stack_below set.now) (map (type_in set.now) a.now) (map (type_in set.now) b.now) }
{
    if a.len() != b.len() {
        return false;
    }
    for i in 0..a.len() {
        if !is_stack_below(set, a[i], b[i]) {
            return false;
        }
    }
    true
}

/// Whether one may stand where the other is expected, by whether each is constructed.
fn is_mark_below(a: bool, b: bool) -> bool
    ensures { result ≡ is_mark_below a b }
{
    a || !b
}

/// Whether what is of the first frame type may stand where the second is expected.
pub fn is_frame_below(set: &ClassSet, a: &FrameType, b: &FrameType) -> bool
    ensures { result ≡ is_frame_below set.now (frame_in set.now a.now) (frame_in set.now b.now) }
{
    if !are_locals_below(set, &a.locals, &b.locals) {
        return false;
    }
    if !is_stack_of_types_below(set, &a.stack, &b.stack) {
        return false;
    }
    is_mark_below(a.constructed, b.constructed)
}

fn join_locals(
    alloc: Global,
    set: &ClassSet,
    a: &[VerificationType],
    b: &[VerificationType],
) -> Result<Option<Vec<VerificationType>>, AllocError>
    requires { HasSuperclasses set.now }
    ensures { IfOk result (λ o. option_map (λ v. map (type_in set.now) v.items) o
        ≡ join_pairwise (λ s t.
        Some (local_join set.now s t)) (map (type_in set.now) a.now) (map (type_in set.now) b.now)) }
{
    if a.len() != b.len() {
        return Ok(None);
    }
    let mut joined = Vec::with_capacity(alloc, a.len())?;
    for i in 0..a.len() {
        joined.push(local_join(set, a[i], b[i]))?;
    }
    Ok(Some(joined))
}

fn join_stack(
    alloc: Global,
    set: &ClassSet,
    a: &[VerificationType],
    b: &[VerificationType],
) -> Result<Option<Vec<VerificationType>>, AllocError>
    requires { HasSuperclasses set.now }
    ensures { IfOk result (λ o. option_map (λ v. map (type_in set.now) v.items) o
        ≡ join_pairwise (stack_join set.now) (map (type_in set.now) a.now) (map (type_in set.now) b.now)) }
{
    if a.len() != b.len() {
        return Ok(None);
    }
    let mut joined = Vec::with_capacity(alloc, a.len())?;
    for i in 0..a.len() {
        let Some(t) = stack_join(set, a[i], b[i]) else {
            return Ok(None);
        };
        joined.push(t)?;
    }
    Ok(Some(joined))
}

/// Whether both are constructed.
fn are_constructed(a: bool, b: bool) -> bool
    ensures { result ≡ (a && b) }
{
    a && b
}

/// The least frame type that is above both, if there is one.
pub fn frame_join(
    alloc: Global,
    set: &ClassSet,
    a: &FrameType,
    b: &FrameType,
) -> Result<Option<FrameType>, AllocError>
    requires { HasSuperclasses set.now }
    ensures { IfOk result (λ o.
        option_map (frame_in set.now) o ≡ frame_join set.now (frame_in set.now a.now) (frame_in set.now b.now)) }
{
    let Some(locals) = join_locals(alloc, set, &a.locals, &b.locals)? else {
        return Ok(None);
    };
    let Some(stack) = join_stack(alloc, set, &a.stack, &b.stack)? else {
        return Ok(None);
    };
    Ok(Some(FrameType {
        locals,
        stack,
        constructed: are_constructed(a.constructed, b.constructed),
    }))
}
