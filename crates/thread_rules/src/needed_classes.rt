//! Which class must be initialised before the event of a thread does what it is about (JVMS 5.2, 5.5).
//!
//! # Proved
//!
//! - `class_needed_by`: by the rule of the event, the number of the class that the definitions name (`needed_class`),
//!   or none where they name none; of an instruction the number is handed in.
//!
//! # Not proved
//!
//! - That the number handed in is that of the class an instruction needs is for whoever calls.
//!
//! # Wrong bodies
//!
//! - `needed_classes-main-in-each-thread`: every thread needs the class of `main` as it begins; refused by
//!   `class_at_begin`.
//! - `needed_classes-super-of-an-interface`: an interface waits for its superclass, and a class does not; refused by
//!   `class_before`.

ghost use Rattle.machine_state.specs.class_initialisation.Steps.{IsBefore};
ghost use Rattle.thread_rules.specs.needed_classes.Needed.{IsFirstClass, NeedsAtBegin, NeedsBy, NeedsInPhase};

use crate::next_rules::NextRule;
use linked_code::LinkedProgram;
use machine_state::method_selection::{class_at, classes_are_read, method_at, methods_are_read};
use model::built_in::MAIN_THREAD;
use thread_stacks::Phase;

/// The class that declares `main`.
fn first_class(program: &LinkedProgram) -> Option<u16>
    ensures { IsFirstClass program.now result }
{
    methods_are_read();
    match method_at(program, program.main) {
        Some(row) => Some(row.class),
        None => None,
    }
}

/// The class that comes before a class: its superclass; an interface has none to wait for (JVMS 5.5, step 7).
fn class_before(program: &LinkedProgram, class: u16) -> Option<u16>
    ensures { IsBefore program.now class result }
{
    classes_are_read();
    match class_at(program, class as u32) {
        None => None,
        Some(row) => {
            if row.is_interface {
                None
            } else {
                row.superclass
            }
        }
    }
}

/// The class that a thread needs as it begins: the main thread that of `main`, which it calls (JVMS 5.2).
fn class_at_begin(program: &LinkedProgram, thread: u16) -> Option<u16>
    ensures { NeedsAtBegin program.now thread result }
{
    if thread == MAIN_THREAD {
        first_class(program)
    } else {
        None
    }
}

/// The class that the initialisation of a class needs, by how far that is.
fn class_in_phase(program: &LinkedProgram, class: u16, phase: Phase) -> Option<u16>
    ensures { NeedsInPhase program.now class phase result }
{
    match phase {
        Phase::Super => class_before(program, class),
        Phase::End => None,
    }
}

/// The class that must be initialised before the event of a thread, by its rule; of the instruction that is next, the
/// class that this needs is handed in.
pub fn class_needed_by(
    program: &LinkedProgram,
    rule: NextRule,
    thread: u16,
    by_instruction: Option<u16>,
) -> Option<u16>
    ensures { NeedsBy program.now rule thread by_instruction result }
{
    match rule {
        NextRule::NoEvent => None,
        NextRule::Relock { .. } => None,
        NextRule::Pending { .. } => None,
        NextRule::Begin => class_at_begin(program, thread),
        NextRule::Initialisation { class, phase } => class_in_phase(program, class, phase),
        NextRule::Bytecode => by_instruction,
    }
}
