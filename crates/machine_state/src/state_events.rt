//! What an event of a thread, which was done on its own stack and on what all threads share, is of the whole state.
//! Each function here is a theorem, and does nothing.
//!
//! # Proved
//!
//! - Of words of a well-typed state whose stacks are all shown: where a thread's stack is lent, what is left shows all
//!   but that stack (`stacks_are_lent`). Once the stack stands in its place again, what became of the thread's event on
//!   it is what becomes of the event in the state (`events_are_whole`, for accepted files): it is done, no limit stood,
//!   and the next state is shown, with the locks fat that the events made fat; or it is not enabled, or refused, and
//!   then nothing has changed.
//!
//! # Not proved
//!
//! - Not proved here, but of `machine`: that something does such an event.

ghost use Rattle.machine_state.specs.state_events.Whole.{AreStacksLent, AreEventsWhole};

/// The stack of a thread may be lent from a state that is shown: what is left shows all but that stack.
pub fn stacks_are_lent()
    ensures holds { AreStacksLent }
{}

/// Once the stack of the thread stands in its place again, what became of its event is what becomes of the event in
/// the state: it is done, and the next state is shown, it is not enabled, or it is refused, where a limit stands or
/// memory is wanted.
pub fn events_are_whole()
    ensures holds { AreEventsWhole }
{}
