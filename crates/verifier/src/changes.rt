//! Local variables that changed, merged into a frame type.

ghost use Rattle.std.specs.Prelude.{◌≡◌, OnOk};
ghost use Rattle.std.specs.List.{list_all};
ghost use Rattle.types.specs.method_code.Linked.{IsLinked};
ghost use Rattle.types.specs.method_code.View.{files_of};
ghost use Rattle.verifier.specs.Changes.{fits, IsJoined};

use crate::packed::PackedFrame;
use hierarchy::ClassSet;
use std::alloc::{AllocError, Global};
use types::method_code::MethodCode;
use types::{is_local_below, local_join};

/// Whether what a local variable holds in a frame type is below what it holds in that there.
fn fits(set: &ClassSet, there: &PackedFrame, frame: &PackedFrame, local: usize) -> bool
    ensures { result ≡ fits set.now there.now frame.now local }
{
    is_local_below(set, frame.local_at(local), there.local_at(local))
}

/// Whether it is so of each of these.
pub(crate) fn all_fit(
    set: &ClassSet,
    there: &PackedFrame,
    frame: &PackedFrame,
    locals: &[usize],
) -> bool
    ensures { result ≡ list_all (fits set.now there.now frame.now) locals.now }
{
    locals.iter().all(|local| fits(set, there, frame, *local))
}

/// Joins what local variables hold in a frame type into these of that there.
pub(crate) fn join_locals(
    alloc: Global,
    method: &MethodCode<'_>,
    there: &mut PackedFrame,
    frame: &PackedFrame,
    locals: &[usize],
) -> Result<(), AllocError>
    requires { IsLinked (files_of method.now) }
    ensures { OnOk result (IsJoined (files_of method.now) locals.now there.old frame.now there.new) }
{
    'locals: for local in locals {
        let t = local_join(method.set(), there.local_at(*local), frame.local_at(*local));
        there.set_local(alloc, *local, t)?;
    }
    Ok(())
}
