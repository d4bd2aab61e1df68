//! What a class has to be initialised by.

ghost use Rattle.std.specs.Prelude.{◌≡◌, None, IfSome};
ghost use Rattle.machine_state.specs.class_initialisation.Steps.{IsBefore, IsInitialiserAt, IsCalleeAt, IsInitialiserBy};

use crate::method_selection::{class_at, classes_are_read, method_at, methods_are_read};
use linked_code::{LinkedProgram, MethodBody};
use thread_stacks::Callee;

/// The class that comes before a class (JVMS 5.5, step 7): its superclass; an interface has none to wait for.
pub(crate) fn class_before(program: &LinkedProgram, class: u16) -> Option<u16>
    ensures { IsBefore program.now class result }
{
    classes_are_read();
    match class_at(program, class as u32) {
        None => None,
        Some(row) => {
            if row.is_interface {
                None
            } else {
                row.superclass
            }
        }
    }
}

/// The number of the initialiser of a class, if the class declares one.
fn initialiser_at(program: &LinkedProgram, class: u16) -> Option<u32>
    ensures { IsInitialiserAt program.now class result }
{
    classes_are_read();
    match class_at(program, class as u32) {
        None => None,
        Some(row) => row.initialiser,
    }
}

/// The method of a number as its call needs it, if it has code. It enters no monitor.
fn callee_at(program: &LinkedProgram, method: u32) -> Option<Callee>
    ensures callee { IsCalleeAt program.now method result }
    ensures entered { IfSome result (λ callee. callee.entered ≡ None) }
{
    methods_are_read();
    match method_at(program, method) {
        None => None,
        Some(row) => match &row.body {
            MethodBody::Abstract => None,
            MethodBody::BuiltIn(_) => None,
            MethodBody::Code(code) => Some(Callee {
                method,
                max_locals: code.max_locals,
                max_stack: code.max_stack,
                entered: None,
            }),
        },
    }
}

/// The initialiser of a class as its call needs it, if the class declares one. It enters no monitor, whatever its
/// flags.
pub(crate) fn initialiser_of(program: &LinkedProgram, class: u16) -> Option<Callee>
    ensures initialiser { IsInitialiserBy program.now class result }
    ensures entered { IfSome result (λ callee. callee.entered ≡ None) }
{
    match initialiser_at(program, class) {
        None => None,
        Some(method) => callee_at(program, method),
    }
}
