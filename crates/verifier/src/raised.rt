//! One frame type merged into another (JVMS 4.10.2.2).

ghost use Rattle.std.specs.Prelude.{IfOk};
ghost use Rattle.types.specs.method_code.Linked.{IsLinked};
ghost use Rattle.types.specs.method_code.View.{files_of};
ghost use Rattle.verifier.specs.Raised.{Raises};

use crate::packed::PackedFrame;
use std::alloc::{AllocError, Global};
use types::method_code::MethodCode;
use types::{frame_join, is_frame_below};

/// What becomes of a frame type as another is merged into it.
#[derive(Drop)]
pub(crate) enum Raised {
    /// Nothing: the other is below it.
    Not,
    /// The join of the two.
    To(PackedFrame),
    /// The two have no join.
    Clash,
}

/// Merges a frame type into one that is there.
pub(crate) fn merge_frames(
    alloc: Global,
    method: &MethodCode<'_>,
    there: &PackedFrame,
    frame: &PackedFrame,
) -> Result<Raised, AllocError>
    requires { IsLinked (files_of method.now) }
    ensures { IfOk result (Raises (files_of method.now) there.now frame.now) }
{
    let there = there.unpack(alloc)?;
    let frame = frame.unpack(alloc)?;
    if is_frame_below(method.set(), &frame, &there) {
        return Ok(Raised::Not);
    }
    let found = frame_join(alloc, method.set(), &there, &frame)?;
    let Some(join) = found else {
        return Ok(Raised::Clash);
    };
    let join = PackedFrame::pack(alloc, join)?;
    Ok(Raised::To(join))
}
