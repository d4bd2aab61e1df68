//! `invokestatic` and `invokespecial`, whose method no receiver's class chooses.

ghost use Rattle.std.specs.Prelude.{◌≡◌, ◌<◌, ◌+◌, ℕ};
ghost use Rattle.model.specs.BuiltInNumbers.{first_class_reference};
ghost use Rattle.model.specs.BuiltInNumbers.{most_threads};
ghost use Rattle.linked_code.specs.declared.instruction.LinkedInstruction.TheVariants as linked;
ghost use Rattle.machine_state.specs.linked_frames.Frames.{CanRun, DoesInstruction};
ghost use Rattle.machine_instructions.specs.called_methods.Selected.{IsClassObject};

use crate::called_methods::frames::{raised, receiver};
use crate::called_methods::running::{Call, run_method};
use linked_code::LinkedProgram;
use machine_state::method_selection::{method_at, methods_are_read};
use machine_state::{Effect, EventRefusal, MachineException, Shared};
use model::built_in::FIRST_CLASS_OBJECT;
use thread_stacks::ThreadStack;

/// The Class object of a class.
pub fn class_object_of(class: u16) -> u32
    ensures { result ≡ first_class_reference + class }
{
    FIRST_CLASS_OBJECT + u32::from(class)
}

/// The Class object of the class that declares a method.
pub fn class_object(program: &LinkedProgram, method: u32) -> u32
    ensures { IsClassObject program.now method result }
{
    methods_are_read();
    match method_at(program, method) {
        Some(row) => class_object_of(row.class),
        None => 0,
    }
}

/// `invokestatic`: the method of a number is called, with so many parameters.
///
/// # Errors
///
/// At the limits of fat locks, of the entries of an owner, of threads, of objects and of cells, or where there is no
/// memory. Nothing has changed then.
pub fn invoke_static(
    shared: &mut Shared,
    stack: &mut ThreadStack,
    program: &LinkedProgram,
    thread: u16,
    pick: u16,
    parameters: u8,
    method: u32,
    frames: usize,
) -> Result<Effect, EventRefusal>
    requires running { (class : ℕ)
        × CanRun program.now thread shared.old stack.old (linked.InvokeStatic parameters class method) }
    requires numbered { thread < most_threads }
    ensures { (class : ℕ) → DoesInstruction program.now (linked.InvokeStatic parameters class method)
        frames (record { thread = thread; pick = pick }) result shared.old shared.new stack.old stack.new }
{
    let call = Call {
        method,
        object: class_object(program, method),
        operands: usize::from(parameters),
    };
    run_method(shared, stack, program, thread, pick, call, frames)
}

/// `invokespecial`, and other calls of a method that no receiver's class chooses: the method of a number is called on
/// the object under so many parameters; null is a NullPointerException.
///
/// # Errors
///
/// The errors of `invoke_static`.
pub fn invoke_special(
    shared: &mut Shared,
    stack: &mut ThreadStack,
    program: &LinkedProgram,
    thread: u16,
    pick: u16,
    parameters: u8,
    method: u32,
    frames: usize,
) -> Result<Effect, EventRefusal>
    requires running { CanRun program.now thread shared.old stack.old (linked.InvokeSpecial parameters method) }
    requires numbered { thread < most_threads }
    ensures { DoesInstruction program.now (linked.InvokeSpecial parameters method) frames
        (record { thread = thread; pick = pick }) result
        shared.old shared.new stack.old stack.new }
{
    let Some(object) = receiver(stack, parameters) else {
        return Ok(raised(pick, MachineException::NullPointer));
    };
    let call = Call {
        method,
        object,
        operands: usize::from(parameters) + 1,
    };
    run_method(shared, stack, program, thread, pick, call, frames)
}
