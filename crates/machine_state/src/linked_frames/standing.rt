//! The instruction of the frame on top.

ghost use Rattle.machine_state.specs.linked_frames.Frames.{IsInstruction};

use crate::method_selection::method_at;
use linked_code::{LinkedInstruction, LinkedProgram, MethodBody};
use thread_stacks::ThreadStack;

/// The instruction at which the frame on top of a stack stands; none where there is no frame on top, or where it stands
/// behind the end of its code, which a thread that runs never does.
#[inline]
pub fn instruction_at(program: &LinkedProgram, stack: &ThreadStack) -> Option<LinkedInstruction>
    ensures { IsInstruction program.now stack.now result }
{
    let frame = stack.frame()?;
    let method = method_at(program, frame.method)?;
    match &method.body {
        MethodBody::Code(code) => code.instructions.get(frame.place).copied(),
        MethodBody::Abstract | MethodBody::BuiltIn(_) => None,
    }
}
