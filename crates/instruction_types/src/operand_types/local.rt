//! Where a local instruction leads from a frame type.

ghost use Rattle.std.specs.Prelude.{◌≡◌, ◌-◌, ◌<◌, ◌^◌, ◌++◌, [], length, map, take, reverse, slice_set, OnOk, OnErr};
ghost use Rattle.model.specs.Classes.{Program};
ghost use Rattle.types.specs.View.{type_in, frame_in};
ghost use Rattle.instruction_types.specs.operand_types.RowView.{row_in, left_in};
ghost use Rattle.instruction_types.specs.operand_types.Local.{row_at, row_leaves, FlowsLocally};

use crate::operand_types::ready::{is_met, operand_of};
use crate::operand_types::row::{MOST_PUSHED, Out, TypeRow};
use crate::operand_types::table::row_of;
use crate::operand_types::targets::targets_of;
use constant_pool::Pool;
use hierarchy::ClassSet;
use model::Instr;
use smallvec::SmallVec;
use std::alloc::{AllocError, Global};
use types::{FrameType, VerificationType};

/// An instruction where it stands. Offsets are in bytes from the beginning of the code.
#[derive(Clone, Copy)]
pub struct InstructionSite<'a> {
    /// The constant pool of the class that declares the method.
    pub pool: &'a Pool,
    /// The code of the method.
    pub code: &'a [u8],
    pub offset: usize,
    /// The offset after the instruction.
    pub next: usize,
    pub instr: Instr,
}

/// What a local instruction makes of a frame type.
#[derive(Drop)]
pub enum LocalFlow {
    /// The instruction is not local.
    NotLocal,
    /// An operand is missing or not as it wants it, or the stack would be too deep.
    NotReady,
    /// The instruction leads to each of these offsets, to the one by default first.
    Leads(SmallVec<usize, 2>),
}

/// What a row leaves at a place.
fn out_type(row: &TypeRow, frame: &FrameType, out: Out) -> VerificationType
    ensures { (files : Program) → type_in files result ≡ left_in files row.now frame.now out }
{
    match out {
        Out::Copy(k) => operand_of(row.asked(), frame, k),
        Out::Number => VerificationType::Int,
        Out::Null => VerificationType::Null,
    }
}

/// What a row pushes, the top last; the places behind it are not used.
fn left_by(row: &TypeRow, frame: &FrameType) -> [VerificationType; MOST_PUSHED]
    ensures { (files : Program) → reverse (map (type_in files) (take (length row.now.pushes.now) result))
        ≡ map (left_in files row.now frame.now) row.now.pushes.now }
{
    let pushes = row.pushes;
    let mut left = [VerificationType::Unusable; MOST_PUSHED];
    for i in 0..pushes.len() {
        left[i] = out_type(row, frame, pushes[pushes.len() - 1 - i]);
    }
    left
}

/// Puts types, the top last, in the place of so many.
fn put(
    stack: &mut Vec<VerificationType>,
    pops: usize,
    types: &[VerificationType],
) -> Result<(), AllocError>
    ensures ok { OnOk result (stack.new.items ≡ take (length stack.old.items - pops) stack.old.items ++ types.now) }
    ensures err { OnErr result (stack.new.items ≡ stack.old.items) }
{
    stack.reserve(types.len())?;
    let n = stack.len();
    stack.truncate(n.saturating_sub(pops));
    stack.extend_from_slice(types).unwrap();
    Ok(())
}

/// Writes a local variable, if there is one of that number.
fn set_local(locals: &mut Vec<VerificationType>, local: u16, t: VerificationType)
    ensures { locals.new.items ≡ slice_set locals.old.items local t }
{
    let local = local as usize;
    if local < locals.len() {
        locals[local] = t;
    }
}

/// Runs a row.
fn run(row: &TypeRow, frame: &mut FrameType) -> Result<(), AllocError>
    ensures ok { OnOk result ((files : Program)
        → frame_in files frame.new ≡ row_leaves (row_in files [] 0 row.now) (frame_in files frame.old)) }
    ensures err { OnErr result ((files : Program) → frame_in files frame.new ≡ frame_in files frame.old) }
{
    let left = left_by(row, frame);
    let left = &left[..row.pushes.len()];
    let Some(write) = row.writes else {
        put(&mut frame.stack, row.pops.len(), left)?;
        return Ok(());
    };
    let written = out_type(row, frame, write.out);
    put(&mut frame.stack, row.pops.len(), left)?;
    set_local(&mut frame.locals, write.local, written);
    Ok(())
}

/// Where the instruction of a site leads from a frame type, if it is local (JVMS 4.10.1.9), in a method whose stack
/// is never deeper than `max_stack` words. The frame type becomes the one that it leads on with; unless it leads on,
/// it stays as it was.
pub fn local_flow(
    alloc: Global,
    set: &ClassSet,
    max_stack: u16,
    site: InstructionSite<'_>,
    frame: &mut FrameType,
) -> Result<LocalFlow, AllocError>
    requires { site.offset < 2 ^ 63 }
    ensures { FlowsLocally set.now max_stack (frame_in set.now frame.old) (frame_in set.now frame.new) result
        (row_at site.entry) }
{
    let Some(row) = row_of(site) else {
        return Ok(LocalFlow::NotLocal);
    };
    if !is_met(set, row.asked(), max_stack, frame) {
        return Ok(LocalFlow::NotReady);
    }
    let targets = targets_of(alloc, site.code, site.offset, row.targets)?;
    run(&row, frame)?;
    Ok(LocalFlow::Leads(targets))
}
