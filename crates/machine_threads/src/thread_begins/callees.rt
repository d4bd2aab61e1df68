//! The method that a thread runs first.

ghost use Rattle.std.specs.Prelude.{◌≡◌, IfSome, Some, None, if◌then◌else◌};
ghost use Rattle.machine_threads.specs.thread_begins.Callees.{IsCalleeAt, MayEnter};

use linked_code::{LinkedProgram, MethodBody};
use machine_state::method_selection::{method_at, methods_are_read};
use thread_stacks::Callee;

/// The method of a number as its call needs it, if it has code; a synchronized one enters the monitor of this object.
pub fn callee_at(program: &LinkedProgram, method: u32, object: u32) -> Option<Callee>
    ensures callee { IsCalleeAt program.now method object result }
    ensures entered { IfSome result (λ callee. MayEnter object callee.entered) }
{
    methods_are_read();
    match method_at(program, method) {
        None => None,
        Some(row) => match &row.body {
            MethodBody::Abstract => None,
            MethodBody::BuiltIn(_) => None,
            MethodBody::Code(code) => Some(Callee {
                method,
                max_locals: code.max_locals,
                max_stack: code.max_stack,
                entered: entered(row.is_synchronized, object),
            }),
        },
    }
}

/// The object whose monitor an invocation enters, where its method is synchronized (JVMS 2.11.10).
fn entered(is_synchronized: bool, object: u32) -> Option<u32>
    ensures entered { result ≡ (if is_synchronized then Some object else None) }
    ensures within { MayEnter object result }
{
    if is_synchronized { Some(object) } else { None }
}
