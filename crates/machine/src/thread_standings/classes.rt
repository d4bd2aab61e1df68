//! Classes that other threads initialise (JVMS 5.5).

ghost use Rattle.machine.specs.thread_standings.Parts.{SaysHeld, StandsInitialising};
ghost use Rattle.thread_stacks.specs.declared.entry.Phase.{Phase};
ghost use Rattle.machine_state.specs.class_initialisation.Steps.{IsBefore};

use linked_code::LinkedProgram;
use machine_state::Shared;
use machine_state::class_initialisation::{ClassLook, look};
use machine_state::method_selection::{class_at, classes_are_read};
use machine_threads::waiting_instructions::Standing;
use thread_stacks::Phase;

/// Whether another thread initialises a class.
pub(crate) fn is_held(shared: &Shared, thread: u16, class: u16) -> bool
    ensures { SaysHeld shared.now thread class result }
{
    match look(shared, thread, class) {
        ClassLook::Held => true,
        ClassLook::Ready => false,
        ClassLook::New => false,
        ClassLook::Failed => false,
    }
}

/// The class that comes before a class (step 7): its superclass; an interface has none to wait for.
fn class_before(program: &LinkedProgram, class: u16) -> Option<u16>
    ensures { IsBefore program.now class result }
{
    classes_are_read();
    match class_at(program, class as u32) {
        None => None,
        Some(row) => {
            if row.is_interface {
                None
            } else {
                row.superclass
            }
        }
    }
}

/// How a thread stands with a class on top, by its number and its phase: it waits only for the superclass.
pub(crate) fn initialisation_standing(
    shared: &Shared,
    program: &LinkedProgram,
    thread: u16,
    class: u16,
    phase: Phase,
) -> Standing
    ensures { StandsInitialising program.now shared.now thread class phase result }
{
    match phase {
        Phase::End => Standing::Runnable,
        Phase::Super => super_standing(shared, program, thread, class),
    }
}

/// How it stands before the superclass is looked at.
fn super_standing(shared: &Shared, program: &LinkedProgram, thread: u16, class: u16) -> Standing
    ensures { StandsInitialising program.now shared.now thread class Phase.Super result }
{
    match class_before(program, class) {
        None => Standing::Runnable,
        Some(first) => {
            if is_held(shared, thread, first) {
                Standing::Initialising
            } else {
                Standing::Runnable
            }
        }
    }
}
