//! The next event of a thread, where it is likely to be alone.

ghost use Rattle.std.specs.Prelude.{◌≡◌};
ghost use Rattle.alone_events.specs.Ahead.{GoesAhead, DoesOrStays, IsTold, IsOwned, IsLeftTold, IsLikely, Tells};

use crate::guesses::{is_likely, likely_left};
use crate::seen::{Seen, has_moved, owns, seen_of};
use crate::theorems::{moves_are_alone, releases_are_alone};
use linked_code::LinkedProgram;
use machine::Machine;
use machine_state::shown_runs::runs_go_on;
use machine_state::{Answer, Shared};
use model::Event;

/// What became of the next event of a thread.
#[derive(Clone, Copy)]
pub enum Ahead {
    /// It was not done.
    Stays,
    /// It was done, and is alone.
    Alone,
    /// It was done, and is not seen to be alone.
    Past,
}

/// What is seen of a thread before its event.
#[derive(Clone, Copy)]
struct Before {
    frame: Seen,
    /// An object whose monitor the thread owns, and is likely to leave.
    left: Option<u32>,
}

/// Does the next event of a thread, with pick 0. Answers whether it was done; nothing has changed where it wasn't.
fn is_done(machine: &mut Machine, thread: u16) -> bool
    ensures { DoesOrStays result thread machine.old machine.new }
{
    runs_go_on();
    match machine.step(Event { thread, pick: 0 }) {
        Ok(Answer::Done) => true,
        Ok(Answer::NotEnabled) => false,
        Err(_refusal) => false,
    }
}

/// An object whose monitor the thread owns, and is likely to leave by its next event.
fn owned_left(program: &LinkedProgram, shared: &Shared, thread: u16) -> Option<u32>
    ensures { IsOwned shared.now thread result }
{
    let object = likely_left(program, shared, thread)?;
    if owns(&shared.heap, object, thread) {
        Some(object)
    } else {
        None
    }
}

/// What is seen of a thread whose next event is likely to be alone; none of another one.
fn seen_before(
    program: &LinkedProgram,
    shared: &Shared,
    thread: u16,
    frames: usize,
) -> Option<Before>
    ensures { IsLikely shared.now thread result }
{
    let left = owned_left(program, shared, thread);
    if left.is_none() && !is_likely(program, shared, thread, frames) {
        return None;
    }
    let frame = seen_of(shared, thread)?;
    Some(Before { frame, left })
}

/// Whether an event was a call or a return, by what is seen of its thread after it.
fn has_moved_to(before: Seen, shared: &Shared, thread: u16) -> bool
    ensures { IsTold result before shared.now thread }
{
    match seen_of(shared, thread) {
        Some(after) => has_moved(before, after),
        None => false,
    }
}

/// Whether a thread has left a monitor, and runs on, by what is seen of it after its event.
fn has_left(before: Before, shared: &Shared, thread: u16) -> bool
    ensures { IsLeftTold result before shared.now thread }
{
    let Some(object) = before.left else {
        return false;
    };
    match seen_of(shared, thread) {
        Some(after) => {
            after.entries <= before.frame.entries && !owns(&shared.heap, object, thread)
        }
        None => false,
    }
}

/// What an event was, by what is seen of its thread after it.
fn told(before: Before, shared: &Shared, thread: u16) -> Ahead
    ensures { Tells result before shared.now thread }
{
    if has_moved_to(before.frame, shared, thread) || has_left(before, shared, thread) {
        Ahead::Alone
    } else {
        Ahead::Past
    }
}

/// Does the next event of a thread, with pick 0, if it is likely to be alone, and tells whether it was.
pub fn go_ahead(machine: &mut Machine, thread: u16) -> Ahead
    ensures { GoesAhead result thread machine.old machine.new }
{
    moves_are_alone();
    releases_are_alone();
    let frames = machine.limits().frames as usize;
    let Some(before) = seen_before(machine.program(), machine.shared(), thread, frames) else {
        return Ahead::Stays;
    };
    if !is_done(machine, thread) {
        return Ahead::Stays;
    }
    told(before, machine.shared(), thread)
}
