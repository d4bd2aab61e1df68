//! The operands that an instruction finds in a frame type, and whether they are as it wants them.

ghost use Rattle.std.specs.Prelude.{◌≡◌, ℕ, ◌+◌, length, map, reverse, take, drop, slice_index_or, nat_le};
ghost use Rattle.model.specs.Classes.{Program};
ghost use Rattle.model.specs.Types.{Unusable, type_meets};
ghost use Rattle.model.specs.Operands.{over_types, reads_meet, pops_meet, is_ready, operands};
ghost use Rattle.types.specs.View.{type_in, frame_in};
ghost use Rattle.instruction_types.specs.operand_types.View.{want_in, reads_in, wants_in, asked_in};

use crate::operand_types::meets::type_meets;
use crate::operand_types::wants::{Asked, LocalRead, Want, Wants};
use hierarchy::ClassSet;
use types::{FrameType, VerificationType};

/// The type of a local variable; not usable where there is none of that number.
fn local_type(frame: &FrameType, local: u16) -> VerificationType
    ensures { result ≡ slice_index_or frame.now.locals.items local VerificationType.Unusable }
{
    match frame.locals.get(local as usize) {
        Some(t) => *t,
        None => VerificationType::Unusable,
    }
}

/// The type under so many others on the operand stack; not usable where there is none.
fn stack_type(frame: &FrameType, depth: usize) -> VerificationType
    ensures { result ≡ slice_index_or (reverse frame.now.stack.items) depth VerificationType.Unusable }
{
    let n = frame.stack.len();
    if depth < n {
        frame.stack[n - 1 - depth]
    } else {
        VerificationType::Unusable
    }
}

/// Whether the local variable that is read is as wanted.
fn reads_meet(set: &ClassSet, reads: Option<LocalRead>, frame: &FrameType) -> bool
    ensures { result ≡ reads_meet (type_meets set.now) over_types (reads_in set.now reads)
        (frame_in set.now frame.now).slots.locals }
{
    match reads {
        Some(read) => type_meets(set, read.want, local_type(frame, read.local)),
        None => true,
    }
}

/// Whether the types on top of the operand stack are as wanted.
fn pops_meet(set: &ClassSet, pops: &[Want], frame: &FrameType) -> bool
    ensures { result ≡ pops_meet (type_meets set.now) (map (want_in set.now) pops.now)
        (frame_in set.now frame.now).slots.stack }
{
    for i in 0..pops.len() {
        if i >= frame.stack.len() {
            return false;
        }
        if !type_meets(set, pops[i], stack_type(frame, i)) {
            return false;
        }
    }
    true
}

/// Whether `grows` words may take the place of so many on the stack.
fn has_room(frame: &FrameType, pops: usize, grows: usize, max_stack: u16) -> bool
    ensures { result ≡ nat_le (length (drop pops frame.now.stack.items) + grows) max_stack }
{
    let max_stack = max_stack as usize;
    let left = frame.stack.len().saturating_sub(pops);
    left <= max_stack && grows <= max_stack - left
}

/// Whether a frame type has what is asked for.
pub(crate) fn is_met(set: &ClassSet, asked: Asked<'_>, max_stack: u16, frame: &FrameType) -> bool
    ensures { result ≡ is_ready (type_meets set.now) over_types (asked_in set.now asked.entry) max_stack
        (frame_in set.now frame.now).slots }
{
    asked.allowed
        && reads_meet(set, asked.reads, frame)
        && pops_meet(set, asked.pops, frame)
        && has_room(frame, asked.pops.len(), asked.grows, max_stack)
}

/// Whether an instruction finds the operands that it wants, and room for what it pushes (JVMS 4.7.3, 4.10.1.4).
pub fn is_ready(set: &ClassSet, wants: &Wants, max_stack: u16, frame: &FrameType) -> bool
    ensures { result ≡ is_ready (type_meets set.now) over_types (wants_in set.now wants.now) max_stack
        (frame_in set.now frame.now).slots }
{
    is_met(set, wants.asked(), max_stack, frame)
}

/// The type at a place of what is popped, the top first; not usable where no more is popped, or the stack has no more.
fn popped_type(frame: &FrameType, pops: usize, k: usize) -> VerificationType
    ensures { result ≡ slice_index_or (take pops (reverse frame.now.stack.items)) k VerificationType.Unusable }
{
    if k < pops {
        stack_type(frame, k)
    } else {
        VerificationType::Unusable
    }
}

/// The type of the operand of a number.
pub(crate) fn operand_of(asked: Asked<'_>, frame: &FrameType, k: usize) -> VerificationType
    ensures { (files : Program) → type_in files result
        ≡ slice_index_or (operands over_types (asked_in files asked.entry) (frame_in files frame.now).slots) k
        Unusable }
{
    let pops = asked.pops.len();
    match asked.reads {
        None => popped_type(frame, pops, k),
        Some(read) if k == 0 => local_type(frame, read.local),
        Some(_) => popped_type(frame, pops, k - 1),
    }
}
