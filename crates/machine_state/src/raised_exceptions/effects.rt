//! What instructions came to, as what their events came to.

ghost use Rattle.std.specs.Prelude.{◌≡◌};
ghost use Rattle.machine_state.specs.raised_exceptions.Applied.{IsThrown, Applies, message_of};

use crate::raised_exceptions::raising::{raise, raise_interrupt};
use crate::{Answer, Effect, EventRefusal, MachineException, Shared};
use linked_code::LinkedProgram;

/// The word of the message of an exception that an instruction raises: only a division by zero has one.
fn message_of(program: &LinkedProgram, fault: MachineException) -> u32
    ensures { result ≡ message_of program.now fault }
{
    match fault {
        MachineException::Arithmetic => program.division_text,
        _ => 0,
    }
}

/// The object of a reference is thrown: it is pending in a thread.
fn throw(shared: &mut Shared, thread: u16, exception: u32)
    ensures { IsThrown exception thread shared.old shared.new }
{
    shared.threads.set_pending(thread, Some(exception));
}

/// What an instruction came to is what becomes of its event: an exception that it raises or throws is pending then.
///
/// # Errors
///
/// Where an exception can't be made: as many objects as may be were made, or there is no memory. Nothing has changed
/// then.
pub fn apply(
    shared: &mut Shared,
    program: &LinkedProgram,
    thread: u16,
    effect: Effect,
) -> Result<Answer, EventRefusal>
    ensures { Applies program.now result effect thread shared.old shared.new }
{
    match effect {
        Effect::Done => Ok(Answer::Done),
        Effect::NotEnabled => Ok(Answer::NotEnabled),
        Effect::Raises(fault) => raise(shared, thread, fault, message_of(program, fault)),
        Effect::Interrupts => raise_interrupt(shared, thread),
        Effect::Throws(exception) => {
            throw(shared, thread, exception);
            Ok(Answer::Done)
        }
    }
}
