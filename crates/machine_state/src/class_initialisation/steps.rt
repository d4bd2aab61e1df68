//! The steps of a thread that initialises a class.

ghost use Rattle.std.specs.Prelude.{◌≡◌, ◌<◌, None, drop};
ghost use Rattle.model.specs.BuiltInNumbers.{most_threads};
ghost use Rattle.thread_stacks.specs.declared.entry.Phase.{Phase};
ghost use Rattle.machine_state.specs.class_initialisation.Statuses.{IsStatusSet};
ghost use Rattle.machine_state.specs.class_initialisation.Steps.{Calls, CallsOver, Fails, Initialises, RunsInitialiser};

use crate::class_initialisation::initialisers::{class_before, initialiser_of};
use crate::class_initialisation::needing::need_class;
use crate::class_initialisation::statuses::set_status;
use crate::invocations::first_call;
use crate::raised_exceptions::{apply, raise_in_initialiser};
use crate::{Answer, ClassStatus, EventRefusal, Shared};
use linked_code::LinkedProgram;
use thread_stacks::{Callee, Phase, ThreadStack};

/// The class on top gets a status, and its entry goes.
fn end(shared: &mut Shared, stack: &mut ThreadStack, class: u16, status: ClassStatus)
    ensures kept { shared.new ≡ record shared.old { statuses = shared.new.statuses; ready = shared.new.ready } }
    ensures set { IsStatusSet class status shared.old shared.new }
    ensures stack { stack.new ≡ drop 1 stack.old }
{
    set_status(shared, class, status);
    stack.drop_top();
}

/// The class on top is erroneous, and its entry goes: an exception is pending that no handler took (JVMS 5.5, steps
/// 11 and 12). An Error stays pending; what is none is replaced by an ExceptionInInitializerError, whose cause it is.
///
/// # Errors
///
/// Where that error can't be made. Nothing has changed then.
pub fn fail(
    shared: &mut Shared,
    stack: &mut ThreadStack,
    thread: u16,
    class: u16,
    exception: u32,
    is_error: bool,
) -> Result<Answer, EventRefusal>
    ensures { Fails result thread class exception is_error shared.old shared.new stack.old stack.new }
{
    if is_error {
        end(shared, stack, class, ClassStatus::Erroneous);
        return Ok(Answer::Done);
    }
    let answer = raise_in_initialiser(shared, thread, exception)?;
    end(shared, stack, class, ClassStatus::Erroneous);
    Ok(answer)
}

/// Calls a method with no arguments, over whatever stands on the stack.
fn call(
    shared: &mut Shared,
    stack: &mut ThreadStack,
    program: &LinkedProgram,
    thread: u16,
    callee: Callee,
    frames: usize,
) -> Result<Answer, EventRefusal>
    requires numbered { thread < most_threads }
    requires entered { callee.entered ≡ None }
    ensures { Calls program.now result thread callee frames shared.old shared.new stack.old stack.new }
{
    match first_call(shared, stack, thread, callee, &[], frames) {
        Ok(effect) => apply(shared, program, thread, effect),
        Err(refusal) => Err(refusal),
    }
}

/// Calls the initialiser of the class on top, which is done after that. Where it isn't called, the class stays as it
/// is; only a StackOverflowError is raised over a class that is done.
fn call_over(
    shared: &mut Shared,
    stack: &mut ThreadStack,
    program: &LinkedProgram,
    thread: u16,
    callee: Callee,
    frames: usize,
) -> Result<Answer, EventRefusal>
    requires numbered { thread < most_threads }
    requires entered { callee.entered ≡ None }
    ensures { CallsOver program.now result thread callee frames shared.old shared.new stack.old stack.new }
{
    stack.set_phase(Phase::End);
    match call(shared, stack, program, thread, callee, frames) {
        Ok(Answer::Done) => Ok(Answer::Done),
        Ok(Answer::NotEnabled) => {
            stack.set_phase(Phase::Super);
            Ok(Answer::NotEnabled)
        }
        Err(refusal) => {
            stack.set_phase(Phase::Super);
            Err(refusal)
        }
    }
}

/// The class's own initialiser runs, if it declares one, before the class is done (JVMS 5.5, step 9).
fn run_initialiser(
    shared: &mut Shared,
    stack: &mut ThreadStack,
    program: &LinkedProgram,
    thread: u16,
    class: u16,
    frames: usize,
) -> Result<Answer, EventRefusal>
    requires { thread < most_threads }
    ensures { RunsInitialiser program.now result thread class frames shared.old shared.new stack.old stack.new }
{
    match initialiser_of(program, class) {
        Some(callee) => call_over(shared, stack, program, thread, callee, frames),
        None => {
            stack.set_phase(Phase::End);
            Ok(Answer::Done)
        }
    }
}

/// The event of a thread with a class on top that it initialises, by its number and its phase (JVMS 5.5): first its
/// superclass is initialised, unless it is an interface (step 7), then its own initialiser runs (step 9), and then it
/// is initialised and its entry goes (step 10). A stack has at most so many frames.
///
/// # Errors
///
/// Where there is no memory, or an exception can't be made. Nothing has changed then.
pub fn initialise(
    shared: &mut Shared,
    stack: &mut ThreadStack,
    program: &LinkedProgram,
    thread: u16,
    class: u16,
    phase: Phase,
    frames: usize,
) -> Result<Answer, EventRefusal>
    requires { thread < most_threads }
    ensures { Initialises program.now result thread class phase frames shared.old shared.new stack.old stack.new }
{
    match phase {
        Phase::Super => begin_step(shared, stack, program, thread, class, frames),
        Phase::End => {
            end(shared, stack, class, ClassStatus::Initialised);
            Ok(Answer::Done)
        }
    }
}

/// The superclass comes first, and then the class's own initialiser.
fn begin_step(
    shared: &mut Shared,
    stack: &mut ThreadStack,
    program: &LinkedProgram,
    thread: u16,
    class: u16,
    frames: usize,
) -> Result<Answer, EventRefusal>
    requires { thread < most_threads }
    ensures { Initialises program.now result thread class Phase.Super frames shared.old shared.new stack.old stack.new }
{
    let Some(first) = class_before(program, class) else {
        return run_initialiser(shared, stack, program, thread, class, frames);
    };
    match need_class(shared, stack, program, thread, first) {
        Ok(None) => run_initialiser(shared, stack, program, thread, class, frames),
        Ok(Some(answer)) => Ok(answer),
        Err(refusal) => Err(refusal),
    }
}
