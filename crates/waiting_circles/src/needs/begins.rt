//! What a thread needs that begins, or that initialises a class (JVMS 5.2, 5.5; JLS 17).

ghost use Rattle.waiting_circles.specs.Needs.{EntersMain, NeedsFirst, NeedsForMain, NeedsToRun, NeedsBeginning};
ghost use Rattle.waiting_circles.specs.Needs.{NeedsForClass, NeedsInPhase};

use crate::needs::kinds::Need;
use linked_code::LinkedProgram;
use machine_instructions::called_methods::{class_object, entered};
use machine_state::Shared;
use machine_state::class_initialisation::{ClassLook, look};
use machine_state::method_selection::{method_at, methods_are_read};
use machine_threads::thread_begins::run_of;
use model::built_in::MAIN_THREAD;
use thread_rules::needed_classes::class_needed_by;
use thread_rules::next_rules::NextRule;
use thread_stacks::Phase;

/// What the first frame of a thread needs, by the object whose monitor it enters. Where a stack may have no frame, a
/// StackOverflowError is raised instead (JVMS 2.5.2).
fn first_need(entered: Option<u32>, frames: usize) -> Option<Need>
    ensures { NeedsFirst entered frames result }
{
    if frames == 0 {
        return None;
    }
    match entered {
        Some(object) => Some(Need::Monitor(object)),
        None => None,
    }
}

/// The object whose monitor `main` enters: where it is synchronized, the Class object of the class that declares it.
fn entered_by_main(program: &LinkedProgram) -> Option<u32>
    ensures { EntersMain program.now result }
{
    methods_are_read();
    let object = class_object(program, program.main);
    match method_at(program, program.main) {
        Some(row) => entered(row.is_synchronized, object),
        None => None,
    }
}

/// What the main thread needs to begin: the initial class first (JVMS 5.2).
fn main_need(shared: &Shared, program: &LinkedProgram, frames: usize) -> Option<Need>
    ensures { NeedsForMain program.now shared.now frames result }
{
    let Some(class) = class_needed_by(program, NextRule::Begin, MAIN_THREAD, None) else {
        return None;
    };
    match look(shared, MAIN_THREAD, class) {
        ClassLook::Ready => first_need(entered_by_main(program), frames),
        ClassLook::Held => Some(Need::Class(class)),
        ClassLook::New => None,
        ClassLook::Failed => None,
    }
}

/// What a thread needs to begin that was started: it calls `run`, which enters the monitor of the Thread object where
/// it is synchronized.
fn run_need(shared: &Shared, program: &LinkedProgram, thread: u16, frames: usize) -> Option<Need>
    ensures { NeedsToRun program.now shared.now thread frames result }
{
    let object = shared.threads.object(thread);
    match run_of(program, &shared.heap, object) {
        Some(callee) => first_need(callee.entered, frames),
        None => None,
    }
}

/// What a thread needs with an empty stack, by its number.
pub(crate) fn begin_need(
    shared: &Shared,
    program: &LinkedProgram,
    thread: u16,
    frames: usize,
) -> Option<Need>
    ensures { NeedsBeginning program.now shared.now thread frames result }
{
    if thread == MAIN_THREAD {
        main_need(shared, program, frames)
    } else {
        run_need(shared, program, thread, frames)
    }
}

/// What an event needs of a class that comes first, where nothing else is needed: the class while another thread is at
/// it.
fn class_need(shared: &Shared, thread: u16, class: u16) -> Option<Need>
    ensures { NeedsForClass shared.now thread class result }
{
    match look(shared, thread, class) {
        ClassLook::Held => Some(Need::Class(class)),
        ClassLook::Ready => None,
        ClassLook::New => None,
        ClassLook::Failed => None,
    }
}

/// What a thread needs with a class on top, by the class's number and its phase: its superclass comes first.
pub(crate) fn initialisation_need(
    shared: &Shared,
    program: &LinkedProgram,
    thread: u16,
    class: u16,
    phase: Phase,
) -> Option<Need>
    ensures { NeedsInPhase program.now shared.now thread class phase result }
{
    let rule = NextRule::Initialisation { class, phase };
    match class_needed_by(program, rule, thread, None) {
        Some(first) => class_need(shared, thread, first),
        None => None,
    }
}
