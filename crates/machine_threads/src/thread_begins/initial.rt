//! The method `main` of the initial class (JVMS 5.2).

ghost use Rattle.machine_state.specs.invocations.Entering.{IsThere};
ghost use Rattle.machine_threads.specs.thread_begins.Runs.{CanBegin};
ghost use Rattle.machine_threads.specs.thread_begins.Initial.{IsOfProgram, IsInitialClass, CallsFirst, CallsMain, BeginsMain};

use crate::thread_begins::callees::callee_at;
use crate::thread_begins::first_frames::push_first;
use linked_code::LinkedProgram;
use machine_instructions::called_methods::class_object_of;
use machine_state::class_initialisation::need_class;
use machine_state::method_selection::{method_at, methods_are_read};
use machine_state::raised_exceptions::apply;
use machine_state::{Answer, EventRefusal, Shared};
use model::built_in::{MAIN_ARGUMENTS, MAIN_THREAD};
use thread_stacks::{Callee, ThreadStack};

/// The word of the reference to the empty array that `main` gets.
const ARGUMENTS: u32 = MAIN_ARGUMENTS + 1;

/// The number of the initial class, which declares `main` (JVMS 5.2).
fn initial_class(program: &LinkedProgram) -> u16
    requires of { IsOfProgram program.now }
    ensures { IsInitialClass program.now result }
{
    methods_are_read();
    match method_at(program, program.main) {
        Some(row) => row.class,
        None => unreachable!(),
    }
}

/// The main thread calls `main` as its first method, by what a call needs of it.
fn call_first(
    shared: &mut Shared,
    stack: &mut ThreadStack,
    program: &LinkedProgram,
    callee: Callee,
    frames: usize,
) -> Result<Answer, EventRefusal>
    requires there { IsThere callee.entered shared.old.heap }
    ensures { CallsFirst program.now result callee frames shared.old shared.new stack.old stack.new }
{
    match push_first(shared, stack, MAIN_THREAD, callee, ARGUMENTS, frames) {
        Ok(effect) => apply(shared, program, MAIN_THREAD, effect),
        Err(refusal) => Err(refusal),
    }
}

/// The main thread calls `main` of the initial class, by the number of that; a synchronized `main` enters the monitor
/// of the Class object.
fn call_main(
    shared: &mut Shared,
    stack: &mut ThreadStack,
    program: &LinkedProgram,
    class: u16,
    frames: usize,
) -> Result<Answer, EventRefusal>
    requires able { CanBegin program.now 0 shared.old stack.old }
    requires initial { IsInitialClass program.now class }
    ensures { CallsMain program.now result frames shared.old shared.new stack.old stack.new }
{
    match callee_at(program, program.main, class_object_of(class)) {
        Some(callee) => call_first(shared, stack, program, callee, frames),
        None => unreachable!(),
    }
}

/// The main thread begins: it calls `main` of the initial class by the rules of `invokestatic` (JVMS 5.2, 6.5), so the
/// initialisation of that class comes first (JVMS 5.5). Where a stack may have no frame, a StackOverflowError is
/// pending. While another thread initialises the class, or owns the monitor that a synchronized `main` enters, the
/// event isn't enabled.
///
/// # Errors
///
/// At the limits of fat locks and of the entries of an owner, where an exception can't be made, or where there is no
/// memory. Nothing has changed then.
pub fn begin_main(
    shared: &mut Shared,
    stack: &mut ThreadStack,
    program: &LinkedProgram,
    frames: usize,
) -> Result<Answer, EventRefusal>
    requires able { CanBegin program.now 0 shared.old stack.old }
    ensures { BeginsMain program.now result frames shared.old shared.new stack.old stack.new }
{
    let class = initial_class(program);
    match need_class(shared, stack, program, MAIN_THREAD, class) {
        Ok(None) => call_main(shared, stack, program, class, frames),
        Ok(Some(answer)) => Ok(answer),
        Err(refusal) => Err(refusal),
    }
}
