//! The handler that takes an exception.

ghost use Rattle.std.specs.Prelude.{◌≡◌, ◌&&◌, nat_le, nat_lt};
ghost use Rattle.machine_state.specs.exception_handlers.Handlers.{TakesException, IsFor, FindsHandler};

use crate::type_tests::is_object_below;
use heap::Heap;
use linked_code::{Element, Handler, LinkedProgram, LinkedType};

/// Whether an offset is in the range of a handler.
fn covers(handler: &Handler, offset: u16) -> bool
    ensures { result ≡ (nat_le handler.now.start offset && nat_lt offset handler.now.end) }
{
    handler.start <= offset && offset < handler.end
}

/// Whether a handler takes the exception: any, or those of a class.
fn takes(program: &LinkedProgram, heap: &Heap, handler: &Handler, exception: u32) -> bool
    ensures { TakesException program.now heap.now.objects exception handler.now result }
{
    match handler.catch_type {
        None => true,
        Some(class) => {
            let type_taken = LinkedType {
                dimensions: 0,
                element: Element::Class(class),
            };
            is_object_below(program, heap, exception, type_taken)
        }
    }
}

/// Whether a handler is one for the exception at an offset.
fn is_for(
    program: &LinkedProgram,
    heap: &Heap,
    handler: &Handler,
    offset: u16,
    exception: u32,
) -> bool
    ensures { IsFor program.now heap.now.objects exception offset handler.now result }
{
    covers(handler, offset) && takes(program, heap, handler, exception)
}

/// The place of the first handler, in the order of the table, that takes the exception at an offset (JVMS 2.10).
pub fn handler_of(
    program: &LinkedProgram,
    heap: &Heap,
    handlers: &[Handler],
    offset: u16,
    exception: u32,
) -> Option<u16>
    ensures { FindsHandler program.now heap.now.objects exception offset handlers.now result }
{
    for handler in handlers {
        if is_for(program, heap, handler, offset, exception) {
            return Some(handler.to);
        }
    }
    None
}
