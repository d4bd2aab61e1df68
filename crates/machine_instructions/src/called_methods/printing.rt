//! Calls of `PrintStream.println(int)`.

ghost use Rattle.std.specs.Prelude.{◌<◌, ℕ};
ghost use Rattle.model.specs.BuiltInNumbers.{most_threads};
ghost use Rattle.linked_code.specs.declared.instruction.LinkedInstruction.TheVariants as linked;
ghost use Rattle.machine_state.specs.linked_frames.Frames.{CanRun, DoesInstruction};

use crate::called_methods::frames::{place_behind, raised, receiver};
use crate::thread_methods::run_built_in;
use linked_code::{BuiltInMethod, LinkedProgram};
use machine_state::{Effect, EventRefusal, MachineException, Shared};
use model::{Event, PrintMethod};
use thread_stacks::ThreadStack;

/// `invokevirtual` of PrintStream.println(int): the number on top is printed, and a line feed; null under it is a
/// NullPointerException.
///
/// # Errors
///
/// Where there is no memory for these. Nothing has changed then.
pub fn println(
    shared: &mut Shared,
    stack: &mut ThreadStack,
    program: &LinkedProgram,
    thread: u16,
    pick: u16,
) -> Result<Effect, EventRefusal>
    requires running { CanRun program.now thread shared.old stack.old linked.Println }
    requires numbered { thread < most_threads }
    ensures { (frames : ℕ) → DoesInstruction program.now linked.Println frames
        (record { thread = thread; pick = pick }) result shared.old shared.new stack.old
        stack.new }
{
    if receiver(stack, 1).is_none() {
        return Ok(raised(pick, MachineException::NullPointer));
    }
    let next = place_behind(stack);
    run_built_in(
        shared,
        stack,
        program,
        Event { thread, pick },
        BuiltInMethod::PrintStreamPrints(PrintMethod::PrintlnInt),
        2,
        next,
    )
}
