//! Which events are local: those of an instruction that touches its frame alone, and throws nothing.

ghost use Rattle.std.specs.Prelude.{◌≡◌, IsTrue, option_map, slice_get};
ghost use Rattle.program_runs.specs.traced_runs.Locals.{IsNextLocal, StandsAtLocal, divides_by_zero as is_division};

use linked_code::{LinkedInstruction, LinkedProgram};
use machine::Machine;
use machine::top_frames::goes_on;
use machine_instructions::local_instructions::is_local;
use machine_state::Shared;
use machine_state::linked_frames::{frames_stand, instruction_at};
use machine_state::state_events::stacks_are_lent;
use thread_stacks::ThreadStack;

/// Whether an instruction is a division by the int on top of the operands, and that is 0.
fn divides_by_zero(instruction: LinkedInstruction, top: u32) -> bool
    ensures { result ≡ is_division instruction top }
{
    match instruction {
        LinkedInstruction::Divide | LinkedInstruction::Remainder => top == 0,
        _ => false,
    }
}

/// Whether the frame on top of a stack stands at a local instruction, which throws nothing.
fn stands_at_local(program: &LinkedProgram, stack: &ThreadStack) -> bool
    ensures { IsTrue result → StandsAtLocal program.now stack.now }
{
    let Some(frame) = stack.frame() else {
        return false;
    };
    let Some(instruction) = instruction_at(program, stack) else {
        return false;
    };
    let has_local = is_local(instruction);
    let has_zero = divides_by_zero(instruction, frame.operand(0));
    has_local && !has_zero
}

/// The stack of a thread, if there is such a thread.
fn stack_of(shared: &Shared, thread: u16) -> Option<&ThreadStack>
    ensures { option_map (λ s. s.now) result ≡ slice_get shared.now.stacks.items thread }
{
    shared.stacks.get(usize::from(thread))
}

/// Whether the next event of a thread is local.
pub(crate) fn is_next_local(machine: &Machine, thread: u16) -> bool
    ensures { IsTrue result → IsNextLocal machine.now thread }
{
    stacks_are_lent();
    frames_stand();
    let shared = machine.shared();
    let Some(stack) = stack_of(shared, thread) else {
        return false;
    };
    if !goes_on(&shared.threads, thread) {
        return false;
    }
    stands_at_local(machine.program(), stack)
}
