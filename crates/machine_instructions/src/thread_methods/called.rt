//! Which method is called.

ghost use Rattle.machine_instructions.specs.thread_methods.Called.{CanCall, DoesCall};

use crate::thread_methods::{
    builders, clones, lives, messages, names, objects, passing, printing, strings, text_writes,
    waiting,
};
use linked_code::{BuiltInMethod, LinkedProgram};
use machine_state::{Effect, EventRefusal, Shared};
use model::Event;
use thread_stacks::ThreadStack;

/// By an event that picks nothing.
fn run_unpicked(
    shared: &mut Shared,
    stack: &mut ThreadStack,
    program: &LinkedProgram,
    thread: u16,
    method: BuiltInMethod,
    operands: usize,
    next: usize,
) -> Result<Effect, EventRefusal>
    requires { CanCall thread shared.old stack.old method operands next }
    ensures { DoesCall program.now method operands next
        (record { thread = thread; pick = 0 }) result shared.old shared.new stack.old stack.new }
{
    match method {
        BuiltInMethod::Construct | BuiltInMethod::ThreadYield => {
            passing::pass(stack, operands, next)
        }
        BuiltInMethod::ConstructWithMessage => {
            messages::set_message(shared, stack, operands, next)
        }
        BuiltInMethod::ConstructWithCause => messages::set_cause(shared, stack, operands, next),
        BuiltInMethod::ObjectClone => clones::clone(shared, stack, program, operands, next),
        BuiltInMethod::ObjectWait => waiting::wait(shared, stack, thread, operands, next),
        BuiltInMethod::ObjectNotify => waiting::notify(shared, stack, thread, 0, operands, next),
        BuiltInMethod::ObjectNotifyAll => {
            waiting::notify_all(shared, stack, thread, operands, next)
        }
        BuiltInMethod::ThreadStart => lives::start(shared, stack, operands, next),
        BuiltInMethod::ThreadInterrupt => { lives::interrupt(shared, stack, operands, next) }
        BuiltInMethod::ThreadIsInterrupted => {
            lives::ask_interrupted(shared, stack, operands, next)
        }
        BuiltInMethod::ThreadInterrupted => {
            lives::take_interrupted(shared, stack, thread, operands, next)
        }
        BuiltInMethod::ThreadCurrentThread => {
            lives::current_thread(shared, stack, thread, operands, next)
        }
        BuiltInMethod::ThreadJoin => lives::join(shared, stack, thread, operands, next),
        BuiltInMethod::ThreadIsAlive => lives::ask_alive(shared, stack, operands, next),
        BuiltInMethod::ThreadNames(method) => {
            names::name_call(shared, stack, method, operands, next)
        }
        BuiltInMethod::PrintStreamPrints(print) => {
            printing::print(shared, stack, print, operands, next)
        }
        BuiltInMethod::StringAnswers(method) => {
            strings::answer_call(shared, stack, method, operands, next)
        }
        BuiltInMethod::StringWrites(method) => {
            text_writes::write_call(shared, stack, program, method, operands, next)
        }
        BuiltInMethod::StringBuilderBuilds(method) => {
            builders::build(shared, stack, program, method, operands, next)
        }
        BuiltInMethod::ObjectAnswers(method) => {
            objects::answer_call(shared, stack, program, method, operands, next)
        }
    }
}

/// A thread calls a built-in method, which takes so many words of the stack of its frame, a receiver that is not null
/// among them; `next` is the place behind the call. The method has no frame: its whole effect is this event (JLS
/// 17.2, the API of Object and Thread). The pick is the event's: which member of the wait set a `notify` wakes, and
/// else 0.
///
/// # Errors
///
/// Where a lock would become one of too many fat locks, too many threads would be started, a new String would be one of
/// too many objects or have too many units, or there is no memory. Nothing has changed then.
pub fn run_built_in(
    shared: &mut Shared,
    stack: &mut ThreadStack,
    program: &LinkedProgram,
    event: Event,
    method: BuiltInMethod,
    operands: usize,
    next: usize,
) -> Result<Effect, EventRefusal>
    requires { CanCall event.thread shared.old stack.old method operands next }
    ensures { DoesCall program.now method operands next event result shared.old shared.new stack.old stack.new }
{
    let Event { thread, pick } = event;
    if pick == 0 {
        return run_unpicked(shared, stack, program, thread, method, operands, next);
    }
    match method {
        BuiltInMethod::ObjectNotify => {
            waiting::notify(shared, stack, thread, pick, operands, next)
        }
        _ => Ok(Effect::NotEnabled),
    }
}
