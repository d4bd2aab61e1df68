//! Exceptions that ended threads, and from where they were thrown (JVMS 2.10).

ghost use Rattle.std.specs.Arc.{arc_value};
ghost use Rattle.machine.specs.Machines.{IsOfAccepted};

use crate::thread_explanations::following::follow;
use crate::thread_explanations::stacks::StackPlaces;
use crate::thread_explanations::watch::{Throw, Watch};
use heap::java_threads::ThreadStatus;
use linked_code::LinkedProgram;
use machine::Machine;
use machine_state::Shared;
use model::Limits;
use schedule::Schedule;
use std::alloc::{AllocError, Global};
use std::sync::Arc;

/// The exception on account of which an initialisation failed (JVMS 5.5, step 11).
#[derive(Drop)]
pub(crate) struct Cause {
    /// The number of the class.
    pub(crate) class: u16,
    pub(crate) exception: u32,
    /// From where it was thrown.
    pub(crate) stack: Option<StackPlaces>,
}

/// An exception that ended a thread.
#[derive(Drop)]
pub(crate) struct Thrown {
    /// From where it was thrown first in that thread.
    pub(crate) stack: Option<StackPlaces>,
    pub(crate) cause: Option<Cause>,
}

/// The exception that ended a thread, if one did.
pub(crate) fn exception_of(shared: &Shared, thread: u16) -> Option<u32> {
    match shared.threads.status(thread) {
        ThreadStatus::Ended(exception) => exception,
        _ => None,
    }
}

/// A watch for each thread, on the exception that ended it.
fn watches_of(alloc: Global, shared: &Shared) -> Result<Vec<Watch>, AllocError> {
    let mut watches = Vec::new(alloc);
    for thread in 0..shared.threads.len() {
        watches.push(Watch::new(alloc, exception_of(shared, thread as u16)))?;
    }
    Ok(watches)
}

/// A watch for each thread, on the exception that is the cause of what was thrown there.
fn causes_of(alloc: Global, watches: &[Watch]) -> Result<Vec<Watch>, AllocError> {
    let mut causes = Vec::new(alloc);
    for watch in watches {
        causes.push(Watch::new(alloc, watch.cause()))?;
    }
    Ok(causes)
}

/// Does the events of the schedule once more, and looks at those that the watches are for. Does none where no watch
/// is for one.
fn watch(
    alloc: Global,
    program: &Arc<LinkedProgram>,
    schedule: &Schedule,
    limits: Limits,
    watches: &mut [Watch],
) -> Result<(), AllocError>
    requires { IsOfAccepted (arc_value program.now) }
{
    if !watches.iter().any(|watch| watch.is_seeking()) {
        return Ok(());
    }
    let mut machine = Machine::open(alloc, Arc::try_clone(program)?, limits)?;
    follow(alloc, &mut machine, schedule, watches)
}

/// The throw that a watch has seen, with the cause that another one has seen.
fn thrown_by(watch: Watch, cause: Option<Watch>) -> Thrown {
    let Some(throw) = watch.into_seen() else {
        return Thrown {
            stack: None,
            cause: None,
        };
    };
    let stack = match cause {
        Some(cause) => stack_of(cause.into_seen()),
        None => None,
    };
    Thrown {
        stack: Some(throw.stack),
        cause: match throw.failed {
            Some((class, exception)) => Some(Cause {
                class,
                exception,
                stack,
            }),
            None => None,
        },
    }
}

/// From where it was thrown.
fn stack_of(throw: Option<Throw>) -> Option<StackPlaces> {
    match throw {
        Some(throw) => Some(throw.stack),
        None => None,
    }
}

/// What each watch has seen, with what the one for its cause has seen.
fn all_thrown(
    alloc: Global,
    watches: Vec<Watch>,
    causes: Vec<Watch>,
) -> Result<Vec<Thrown>, AllocError> {
    let mut causes = causes.into_iter();
    let mut throws = Vec::new(alloc);
    for watch in watches {
        throws.push(thrown_by(watch, causes.next()))?;
    }
    Ok(throws)
}

/// Of each thread, by its number, from where the exception was thrown that ended it. Where there is one, the run is
/// done once more for it, and once again where one of them has a cause.
pub(crate) fn throws_of(
    alloc: Global,
    program: &Arc<LinkedProgram>,
    schedule: &Schedule,
    limits: Limits,
    shared: &Shared,
) -> Result<Vec<Thrown>, AllocError>
    requires { IsOfAccepted (arc_value program.now) }
{
    let mut watches = watches_of(alloc, shared)?;
    watch(alloc, program, schedule, limits, &mut watches)?;
    let mut causes = causes_of(alloc, &watches)?;
    watch(alloc, program, schedule, limits, &mut causes)?;
    all_thrown(alloc, watches, causes)
}
