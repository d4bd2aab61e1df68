//! Whether an object is of a type.

ghost use Rattle.machine_state.specs.type_tests.Tests.{TestsObject};

use crate::type_tests::kinds::is_kind_below;
use heap::Heap;
use linked_code::{LinkedProgram, LinkedType};

/// Whether the object of a reference is an instance of a type (JVMS 6.5 checkcast, instanceof, aastore); of one that
/// isn't there it is false. The class of the type, if it has one, is one against which something is tested.
#[inline]
pub fn is_object_below(program: &LinkedProgram, heap: &Heap, object: u32, of: LinkedType) -> bool
    ensures { TestsObject program.now heap.now.objects object of result }
{
    match heap.class_of(object) {
        Some(kind) => is_kind_below(program, kind, of),
        None => false,
    }
}
