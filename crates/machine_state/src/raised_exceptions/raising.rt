//! An exception that is made, and is pending then.

ghost use Rattle.std.specs.Prelude.{◌≡◌, ◌+◌, ◌<◌, ◌^◌, length};
ghost use Rattle.machine_state.specs.raised_exceptions.Raised.{class_number, IsRaised, IsRaisedByInterrupt};
ghost use Rattle.machine_state.specs.raised_exceptions.Raised.{IsRaisedInInitialiser, MakesWith};

use crate::{Answer, EventRefusal, MachineException, Shared};
use heap::{AllocRefusal, Heap, ObjectKind};
use model::built_in;

/// The slot of the field `message` in an object of Throwable or of a class below it.
pub const MESSAGE: u32 = 0;

/// The slot of the field `cause`.
pub const CAUSE: u32 = 1;

/// The number of the class of an exception: the built-in classes come first in each program.
fn class_of(fault: MachineException) -> u32
    ensures { result ≡ class_number fault }
{
    let number = match fault {
        MachineException::NullPointer => built_in::NULL_POINTER_EXCEPTION,
        MachineException::Arithmetic => built_in::ARITHMETIC_EXCEPTION,
        MachineException::ArrayIndexOutOfBounds => built_in::ARRAY_INDEX_OUT_OF_BOUNDS_EXCEPTION,
        MachineException::StringIndexOutOfBounds => built_in::STRING_INDEX_OUT_OF_BOUNDS_EXCEPTION,
        MachineException::NegativeArraySize => built_in::NEGATIVE_ARRAY_SIZE_EXCEPTION,
        MachineException::CloneNotSupported => built_in::CLONE_NOT_SUPPORTED_EXCEPTION,
        MachineException::ArrayStore => built_in::ARRAY_STORE_EXCEPTION,
        MachineException::ClassCast => built_in::CLASS_CAST_EXCEPTION,
        MachineException::IllegalMonitorState => built_in::ILLEGAL_MONITOR_STATE_EXCEPTION,
        MachineException::IllegalThreadState => built_in::ILLEGAL_THREAD_STATE_EXCEPTION,
        MachineException::InterruptedWait => built_in::INTERRUPTED_EXCEPTION,
        MachineException::IncompatibleClassChange => built_in::INCOMPATIBLE_CLASS_CHANGE_ERROR,
        MachineException::AbstractMethod => built_in::ABSTRACT_METHOD_ERROR,
        MachineException::StackOverflow => built_in::STACK_OVERFLOW_ERROR,
        MachineException::NoClassDefFound => built_in::NO_CLASS_DEF_FOUND_ERROR,
    };
    number as u32
}

/// The word of the reference of an object, which is one of 32 bits, or 0 where there is no such object.
#[inline]
pub fn word_of(heap: &Heap, object: u32) -> u32
    ensures bound { length heap.now.objects < 2 ^ 32 }
    ensures there { object < length heap.now.objects → result ≡ object + 1 }
{
    if object < heap.len() { object + 1 } else { 0 }
}

/// A new object of a class of exceptions, with the words of its message and of its cause, which count as no cells. A word
/// is 0 where there is none. The answer is the reference of the object.
fn make(heap: &mut Heap, class: u32, message: u32, cause: u32) -> Result<u32, AllocRefusal>
    ensures { MakesWith result class message cause heap.old heap.new }
{
    heap.add_words(ObjectKind::Instance { class }, &[message, cause, 0], 0)?;
    Ok(heap.len().saturating_sub(1))
}

/// The machine makes an exception, with no call of a constructor, and it is pending in a thread. Its message has this
/// word, which is 0 where there is none. The call answers that its event is done.
///
/// # Errors
///
/// Where as many objects as may be were made, or there is no memory. Nothing has changed then.
pub fn raise(
    shared: &mut Shared,
    thread: u16,
    fault: MachineException,
    message: u32,
) -> Result<Answer, EventRefusal>
    ensures { IsRaised result fault message thread shared.old shared.new }
{
    let exception = make(&mut shared.heap, class_of(fault), message, 0)?;
    shared.threads.set_pending(thread, Some(exception));
    Ok(Answer::Done)
}

/// An ExceptionInInitializerError, whose cause is the exception of a reference, is pending in a thread (JVMS 5.5, step
/// 11).
///
/// # Errors
///
/// Where as many objects as may be were made, or there is no memory. Nothing has changed then.
pub fn raise_in_initialiser(
    shared: &mut Shared,
    thread: u16,
    exception: u32,
) -> Result<Answer, EventRefusal>
    ensures { IsRaisedInInitialiser result exception thread shared.old shared.new }
{
    let cause = word_of(&shared.heap, exception);
    let class = built_in::EXCEPTION_IN_INITIALIZER_ERROR as u32;
    let error = make(&mut shared.heap, class, 0, cause)?;
    shared.threads.set_pending(thread, Some(error));
    Ok(Answer::Done)
}

/// A thread that waits or joins was interrupted: an InterruptedException is pending, and the interrupt status is
/// cleared (JLS 17.2.1, 17.2.3).
///
/// # Errors
///
/// Where as many objects as may be were made, or there is no memory. Nothing has changed then.
pub fn raise_interrupt(shared: &mut Shared, thread: u16) -> Result<Answer, EventRefusal>
    ensures { IsRaisedByInterrupt result thread shared.old shared.new }
{
    let exception = make(
        &mut shared.heap,
        class_of(MachineException::InterruptedWait),
        0,
        0,
    )?;
    shared.threads.set_interrupted(thread, false);
    shared.threads.set_pending(thread, Some(exception));
    Ok(Answer::Done)
}
