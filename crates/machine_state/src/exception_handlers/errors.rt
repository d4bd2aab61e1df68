//! Whether an exception is an Error (JLS 11.1.1).

ghost use Rattle.std.specs.Prelude.{◌≡◌, slice_get};
ghost use Rattle.std.specs.Option.{option_and_then};
ghost use Rattle.machine_state.specs.exception_handlers.Errors.{class_in, superclass_in, IsErrorClass, IsErrorObject};

use crate::method_selection::{class_at, classes_are_read};
use heap::{Heap, ObjectKind};
use linked_code::LinkedProgram;
use model::built_in::ERROR;

/// The superclass of a class, if it has one.
fn superclass_of(program: &LinkedProgram, class: u32) -> Option<u16>
    ensures { result ≡ option_and_then superclass_in (slice_get program.now.classes.items class) }
{
    match class_at(program, class) {
        Some(row) => row.superclass,
        None => None,
    }
}

/// Whether a class is Error or a subclass of it. It goes up from class to class: nothing else is tested against Error.
fn is_error_class(program: &LinkedProgram, class: u32) -> bool
    ensures { IsErrorClass program.now class result }
{
    classes_are_read();
    let mut nearest = class;
    for _ in 0..program.classes.len() {
        if nearest == ERROR as u32 {
            return true;
        }
        match superclass_of(program, nearest) {
            Some(above) => nearest = above as u32,
            None => return false,
        }
    }
    nearest == ERROR as u32
}

/// The class of an instance.
fn class_in(kind: Option<ObjectKind>) -> Option<u32>
    ensures { result ≡ class_in kind }
{
    match kind {
        Some(ObjectKind::Instance { class }) => Some(class),
        _ => None,
    }
}

/// Whether the object of a reference is an Error (JLS 11.1.1).
pub fn is_error(program: &LinkedProgram, heap: &Heap, exception: u32) -> bool
    ensures { IsErrorObject program.now heap.now.objects exception result }
{
    match class_in(heap.class_of(exception)) {
        Some(class) => is_error_class(program, class),
        None => false,
    }
}
