//! For what an instruction waits.

ghost use Rattle.machine_threads.specs.waiting_instructions.Waits.{StandsAtIt};
ghost use Rattle.machine_threads.specs.waiting_instructions.Held.{StandsAt};

use crate::waiting_instructions::kinds::Standing;
use crate::waiting_instructions::looks::look_of;
use crate::waiting_instructions::ready::ready_standing;
use linked_code::{LinkedInstruction, LinkedProgram};
use machine_state::class_initialisation::ClassLook;
use machine_state::linked_frames::instruction_at;
use machine_state::{Shared, instructions_are_done};
use thread_stacks::ThreadStack;

/// How a thread stands at an instruction. Its class comes first: while another thread initialises it, the thread
/// waits (JVMS 5.5); the event is the begin of its initialisation, where it is new, and a NoClassDefFoundError, where
/// that has failed.
fn standing_at(
    shared: &Shared,
    stack: &ThreadStack,
    program: &LinkedProgram,
    thread: u16,
    frames: usize,
    instruction: LinkedInstruction,
) -> Standing
    ensures { StandsAt program.now instruction frames thread result shared.now stack.now }
{
    instructions_are_done();
    match look_of(shared, thread, instruction) {
        ClassLook::Ready => ready_standing(shared, stack, program, thread, frames, instruction),
        ClassLook::Held => Standing::Initialising,
        ClassLook::New | ClassLook::Failed => Standing::Runnable,
    }
}

/// How a thread stands that runs, with no exception pending, and has a frame on top of its stack. A thread has at
/// most so many frames.
pub fn instruction_standing(
    shared: &Shared,
    stack: &ThreadStack,
    program: &LinkedProgram,
    thread: u16,
    frames: usize,
) -> Standing
    ensures { StandsAtIt program.now shared.now stack.now thread frames result }
{
    match instruction_at(program, stack) {
        Some(instruction) => standing_at(shared, stack, program, thread, frames, instruction),
        None => Standing::Runnable,
    }
}
