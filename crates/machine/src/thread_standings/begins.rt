//! Threads with an empty stack (JVMS 5.2; JLS 17).

ghost use Rattle.machine.specs.thread_standings.Parts.{IsInitialIf, SaysCallsMain, SaysMainMayBegin, SaysMainHeld, SaysMayBegin, StandsEmpty, StandsBeginning};
ghost use Rattle.machine_threads.specs.thread_begins.Initial.{IsInitialClass};

use crate::thread_standings::classes::is_held;
use crate::thread_standings::monitors::may_call;
use crate::thread_standings::runs::run_may_begin;
use linked_code::LinkedProgram;
use machine_instructions::called_methods::class_object_of;
use machine_state::Shared;
use machine_state::class_initialisation::{ClassLook, look};
use machine_state::method_selection::{method_at, methods_are_read};
use machine_threads::thread_begins::callee_at;
use machine_threads::waiting_instructions::Standing;
use model::built_in::MAIN_THREAD;

/// The number of the initial class, which declares `main` (JVMS 5.2).
fn initial_class(program: &LinkedProgram) -> Option<u16>
    ensures { IsInitialIf program.now result }
{
    methods_are_read();
    match method_at(program, program.main) {
        Some(row) => Some(row.class),
        None => None,
    }
}

/// Whether the main thread may call `main`, whose class is ready: a synchronized one enters the monitor of the Class
/// object.
fn may_call_main(shared: &Shared, program: &LinkedProgram, class: u16, frames: usize) -> bool
    requires { IsInitialClass program.now class }
    ensures { SaysCallsMain program.now shared.now frames result }
{
    match callee_at(program, program.main, class_object_of(class)) {
        Some(callee) => may_call(&shared.heap, MAIN_THREAD, callee.entered, frames),
        None => true,
    }
}

/// Whether the main thread may begin: no other thread initialises the initial class, and where that is ready, `main`
/// may be called.
fn main_may_begin(shared: &Shared, program: &LinkedProgram, frames: usize) -> bool
    ensures { SaysMainMayBegin program.now shared.now frames result }
{
    let Some(class) = initial_class(program) else {
        return false;
    };
    match look(shared, MAIN_THREAD, class) {
        ClassLook::Ready => may_call_main(shared, program, class, frames),
        ClassLook::New => true,
        ClassLook::Held => false,
        ClassLook::Failed => true,
    }
}

/// Whether another thread initialises the initial class.
fn is_main_held(shared: &Shared, program: &LinkedProgram) -> bool
    ensures { SaysMainHeld program.now shared.now result }
{
    match initial_class(program) {
        Some(class) => is_held(shared, MAIN_THREAD, class),
        None => false,
    }
}

/// Whether a thread may begin, by its number.
fn may_begin(shared: &Shared, program: &LinkedProgram, thread: u16, frames: usize) -> bool
    ensures { SaysMayBegin program.now shared.now thread frames result }
{
    if thread == MAIN_THREAD {
        main_may_begin(shared, program, frames)
    } else {
        run_may_begin(shared, program, thread, frames)
    }
}

/// For what a thread with an empty stack waits that may do no event: the main thread for the initial class, where
/// another thread initialises that, and else for a monitor.
pub(crate) fn empty_standing(shared: &Shared, program: &LinkedProgram, thread: u16) -> Standing
    ensures { StandsEmpty program.now shared.now thread result }
{
    if thread != MAIN_THREAD {
        return Standing::Blocked;
    }
    if is_main_held(shared, program) {
        Standing::Initialising
    } else {
        Standing::Blocked
    }
}

/// How a thread stands with an empty stack and no exception pending: it begins.
pub(crate) fn begin_standing(
    shared: &Shared,
    program: &LinkedProgram,
    thread: u16,
    frames: usize,
) -> Standing
    ensures { StandsBeginning program.now shared.now thread frames result }
{
    if may_begin(shared, program, thread, frames) {
        Standing::Runnable
    } else {
        empty_standing(shared, program, thread)
    }
}
