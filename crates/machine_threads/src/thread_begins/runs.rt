//! The method `run` of a Thread object.

ghost use Rattle.std.specs.Prelude.{◌≡◌, ◌<◌, ◌+◌, IfSome, length};
ghost use Rattle.model.specs.BuiltInNumbers.{most_threads};
ghost use Rattle.machine_threads.specs.thread_begins.Callees.{MayEnter};
ghost use Rattle.machine_threads.specs.thread_begins.Runs.{SelectsRun, FindsRun, CanBegin, BeginsRun};

use crate::thread_begins::callees::callee_at;
use crate::thread_begins::first_frames::push_first;
use heap::Heap;
use linked_code::LinkedProgram;
use machine_state::method_selection::{class_of_kind, methods_are_read, select_virtual};
use machine_state::{Effect, EventRefusal, MachineException, Shared};
use thread_stacks::{Callee, ThreadStack};

/// The number of the method `run` of a Thread object, by the rules of `invokevirtual` (JVMS 6.5).
fn selected_run(program: &LinkedProgram, heap: &Heap, object: u32) -> Option<u32>
    ensures { SelectsRun program.now heap.now.objects object result }
{
    match heap.class_of(object) {
        Some(kind) => select_virtual(program, class_of_kind(kind), program.run_place),
        None => None,
    }
}

/// The method `run` of a Thread object as its call needs it, if it has code.
pub fn run_of(program: &LinkedProgram, heap: &Heap, object: u32) -> Option<Callee>
    ensures run { FindsRun program.now heap.now.objects object result }
    ensures entered { IfSome result (λ callee. MayEnter object callee.entered) }
{
    methods_are_read();
    match selected_run(program, heap, object) {
        Some(method) => callee_at(program, method, object),
        None => None,
    }
}

/// The word of a reference to an object of the heap.
fn reference(heap: &Heap, object: u32) -> u32
    requires { object < length heap.now.objects }
    ensures { result ≡ object + 1 }
{
    let _count = heap.len();
    object + 1
}

/// A thread that was started begins: it calls `run` of its Thread object by the rules of `invokevirtual`. Where that
/// has no code, an AbstractMethodError is raised. All else is as for `push_first`.
///
/// # Errors
///
/// At the limits of fat locks and of the entries of an owner, or where there is no memory. Nothing has changed then.
pub fn begin_run(
    shared: &mut Shared,
    stack: &mut ThreadStack,
    program: &LinkedProgram,
    thread: u16,
    frames: usize,
) -> Result<Effect, EventRefusal>
    requires able { CanBegin program.now thread shared.old stack.old }
    requires numbered { thread < most_threads }
    ensures { BeginsRun program.now result thread frames shared.old shared.new stack.old stack.new }
{
    let object = shared.threads.object(thread);
    match run_of(program, &shared.heap, object) {
        Some(callee) => {
            let word = reference(&shared.heap, object);
            push_first(shared, stack, thread, callee, word, frames)
        }
        None => Ok(Effect::Raises(MachineException::AbstractMethod)),
    }
}
