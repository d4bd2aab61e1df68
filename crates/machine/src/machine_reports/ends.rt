//! How the threads of a machine stand.

ghost use Rattle.std.specs.Prelude.{◌≡◌, IfOk, map};
ghost use Rattle.std.specs.List.{list_any};
ghost use Rattle.model.specs.Report.{end_state_of};
ghost use Rattle.machine.specs.machine_reports.Told.{IsTold, TellEnds, is_runnable, are_quiet, AreQuietAt};

use crate::thread_standings::{Standing, standing_of};
use hierarchy::ClassSet;
use linked_code::LinkedProgram;
use machine_state::Shared;
use model::EndState;
use std::alloc::{AllocError, Global};

/// How a thread stands, with the name of its exception's class in place of the number.
fn end_state(alloc: Global, classes: &ClassSet, standing: Standing) -> Result<EndState, AllocError>
    ensures { IfOk result (IsTold classes.now standing) }
{
    Ok(match standing {
        Standing::Ended => EndState::Ended,
        Standing::Threw(class) => {
            EndState::Threw(Vec::from_slice(alloc, classes.name_at(class as usize))?)
        }
        Standing::Blocked => EndState::Blocked,
        Standing::Waiting => EndState::Waiting,
        Standing::Joining => EndState::Joining,
        Standing::Initialising => EndState::Initialising,
        Standing::Runnable => EndState::Runnable,
    })
}

/// How each thread stands, by its number, where a stack has at most so many frames (JVMS 2.5.2, 2.10, 5.5; JLS 17).
/// The classes are those of the program's files.
pub fn thread_ends(
    alloc: Global,
    classes: &ClassSet,
    program: &LinkedProgram,
    shared: &Shared,
    frames: usize,
) -> Result<Vec<EndState>, AllocError>
    ensures { IfOk result (λ ends. TellEnds classes.now program.now shared.now frames ends.items) }
{
    let mut ends = Vec::new(alloc);
    for thread in 0..shared.threads.len() {
        let standing = standing_of(shared, program, thread as u16, frames);
        ends.push(end_state(alloc, classes, standing)?)?;
    }
    Ok(ends)
}

/// Whether a thread has an event that is enabled.
fn may_go_on(thread: &EndState) -> bool
    ensures { result ≡ is_runnable (end_state_of thread.now) }
{
    matches!(thread, EndState::Runnable)
}

/// Whether one of the threads has an event that is enabled.
fn any_goes_on(threads: &[EndState]) -> bool
    ensures { result ≡ list_any (λ thread. is_runnable (end_state_of thread)) threads.now }
{
    threads.iter().any(may_go_on)
}

/// Whether none of the threads has an event that is enabled (JLS 17).
pub fn is_quiet(threads: &[EndState]) -> bool
    ensures told { result ≡ are_quiet (map end_state_of threads.now) }
    // Where these are the threads of a state, it is quiet then, and only then.
    ensures quiet { AreQuietAt threads.now result }
{
    !any_goes_on(threads)
}
