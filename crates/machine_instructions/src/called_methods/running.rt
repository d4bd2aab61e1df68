//! The method that a call runs.

ghost use Rattle.std.specs.Prelude.{◌<◌, ◌≡◌, Some, None, if◌then◌else◌};
ghost use Rattle.model.specs.BuiltInNumbers.{most_threads};
ghost use Rattle.machine_instructions.specs.called_methods.Invoked.{CanInvoke, Invokes};

use crate::called_methods::frames::{place_behind, raised};
use crate::thread_methods::run_built_in;
use linked_code::{LinkedProgram, MethodBody};
use machine_state::invocations::call as call_method;
use machine_state::method_selection::{method_at, methods_are_run};
use machine_state::{Effect, EventRefusal, MachineException, Shared};
use model::Event;
use thread_stacks::{Callee, ThreadStack};

/// A call: the method that it runs, by its number, the object whose monitor that enters where it is synchronized, and
/// how many words it takes.
#[derive(Clone, Copy)]
pub(crate) struct Call {
    pub(crate) method: u32,
    pub(crate) object: u32,
    pub(crate) operands: usize,
}

/// The object whose monitor an invocation enters, where its method is synchronized (JVMS 2.11.10).
#[inline]
pub fn entered(is_synchronized: bool, object: u32) -> Option<u32>
    ensures { result ≡ (if is_synchronized then Some object else None) }
{
    if is_synchronized { Some(object) } else { None }
}

/// The frame on top calls a method: one with code gets a frame, a built-in one is done at once, and an abstract one
/// is an AbstractMethodError.
///
/// # Errors
///
/// At the limits of fat locks, of the entries of an owner, of threads, of objects and of cells, or where there is no
/// memory. Nothing has changed then.
pub(crate) fn run_method(
    shared: &mut Shared,
    stack: &mut ThreadStack,
    program: &LinkedProgram,
    thread: u16,
    pick: u16,
    call: Call,
    frames: usize,
) -> Result<Effect, EventRefusal>
    requires able { CanInvoke program.now thread shared.old stack.old call }
    requires numbered { thread < most_threads }
    ensures { Invokes program.now call frames
        (record { thread = thread; pick = pick }) result shared.old shared.new stack.old stack.new }
{
    methods_are_run();
    let Some(row) = method_at(program, call.method) else {
        return Ok(Effect::NotEnabled);
    };
    match &row.body {
        MethodBody::Abstract => Ok(raised(pick, MachineException::AbstractMethod)),
        MethodBody::BuiltIn(method) => {
            let next = place_behind(stack);
            let event = Event { thread, pick };
            run_built_in(shared, stack, program, event, *method, call.operands, next)
        }
        MethodBody::Code(code) => {
            if pick != 0 {
                return Ok(Effect::NotEnabled);
            }
            let callee = Callee {
                method: call.method,
                max_locals: code.max_locals,
                max_stack: code.max_stack,
                entered: entered(row.is_synchronized, call.object),
            };
            call_method(shared, stack, thread, callee, call.operands, frames)
        }
    }
}
