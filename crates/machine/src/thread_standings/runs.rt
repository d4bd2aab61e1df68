//! The method `run` of a Thread object.

ghost use Rattle.machine.specs.thread_standings.Parts.{SaysRunMayBegin};

use crate::thread_standings::monitors::may_call;
use linked_code::LinkedProgram;
use machine_state::Shared;
use machine_threads::thread_begins::run_of;

/// Whether a thread that was started may begin: it calls `run`, which enters the monitor of the Thread object where
/// it is synchronized. Where it has no code, an AbstractMethodError is raised.
pub(crate) fn run_may_begin(
    shared: &Shared,
    program: &LinkedProgram,
    thread: u16,
    frames: usize,
) -> bool
    ensures { SaysRunMayBegin program.now shared.now thread frames result }
{
    let object = shared.threads.object(thread);
    match run_of(program, &shared.heap, object) {
        Some(callee) => may_call(&shared.heap, thread, callee.entered, frames),
        None => true,
    }
}
