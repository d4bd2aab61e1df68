//! The monitor that an instruction may lock or unlock, but for one that a new invocation enters (JLS 17.1; JVMS
//! 2.11.10).
//!
//! # Proved
//!
//! - `meant_by`: of the instruction of a frame, the monitor that the invocation entered, where that returns, and else
//!   the one of the object on top of the operands (`said_of`).
//! - That is the one which the definitions mean, wherever they mean one (`instructions_mean`).
//! - `meant_before`: the same of the event of a thread, by the rule by which that goes (`MeansBefore`).
//!
//! # Not proved
//!
//! - That the instruction handed in is the one of the frame is for whoever calls.
//!
//! # Wrong bodies
//!
//! - `meant_before-return-leaves-none`: a return means the monitor of the operand on top; refused by `meant_by`.
//! - `meant_before-pending-leaves-none`: an exception that ends an invocation means no monitor; refused by
//!   `meant_before`.

ghost use Rattle.std.specs.Prelude.{◌≡◌};
ghost use Rattle.thread_stacks.specs.Stacks.{shown_frame};
ghost use Rattle.state_actions.specs.meant_before.Said.{AreInstructionsMeant, MeansBefore, MeansNext};
ghost use Rattle.state_actions.specs.meant_before.Said.{said_of};
ghost use Rattle.state_actions.specs.changed_monitors.Changed.{entered_on};

use model::Instr;
use thread_rules::next_rules::NextRule;
use thread_stacks::{Frame, ThreadStack};

/// The object whose monitor the instruction of a frame may lock or unlock. Where it locks and unlocks none, this is any
/// object.
pub fn meant_by(frame: &Frame<'_>, instruction: Instr) -> Option<u32>
    ensures { result ≡ said_of instruction (shown_frame frame.now) }
{
    match instruction {
        Instr::Return(_) => frame.entered,
        _ => Some(frame.operand(0).saturating_sub(1)),
    }
}

/// The object whose monitor the invocation on top entered.
fn entered_on_top(stack: &ThreadStack) -> Option<u32>
    ensures { result ≡ entered_on stack.now }
{
    match stack.frame() {
        Some(frame) => frame.entered,
        None => None,
    }
}

/// The monitor that the next instruction of a thread may lock or unlock.
fn meant_next(stack: &ThreadStack, instruction: Option<Instr>) -> Option<u32>
    ensures { MeansNext stack.now instruction result }
{
    instructions_mean();
    let Some(instruction) = instruction else {
        return None;
    };
    match stack.frame() {
        Some(frame) => meant_by(&frame, instruction),
        None => None,
    }
}

/// The monitor that the event of a thread may lock or unlock, but for one that a new invocation enters, by the rule of
/// the event, and by the instruction of the frame on top.
pub fn meant_before(rule: NextRule, stack: &ThreadStack, instruction: Option<Instr>) -> Option<u32>
    ensures { MeansBefore rule stack.now instruction result }
{
    match rule {
        NextRule::NoEvent => None,
        NextRule::Relock { object, .. } => Some(object),
        NextRule::Pending { .. } => entered_on_top(stack),
        NextRule::Begin => None,
        NextRule::Initialisation { .. } => None,
        NextRule::Bytecode => meant_next(stack, instruction),
    }
}

/// What is told of an instruction is the monitor that it means, if it means one.
pub fn instructions_mean()
    ensures holds { AreInstructionsMeant }
{}
