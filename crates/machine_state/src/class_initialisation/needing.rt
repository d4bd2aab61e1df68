//! What comes first of an event that needs a class.

ghost use Rattle.machine_state.specs.class_initialisation.Needed.{Begins, Needs};

use crate::class_initialisation::constants::set_constants;
use crate::class_initialisation::statuses::{ClassLook, look, set_status};
use crate::method_selection::{class_at, classes_are_read};
use crate::raised_exceptions::raise;
use crate::{Answer, ClassStatus, EventRefusal, MachineException, Shared};
use linked_code::LinkedProgram;
use thread_stacks::{Phase, ThreadStack};

/// A thread marks a class as its own and sets the constants; its entry stands for the steps after that (JVMS 5.5,
/// step 6).
fn begin(
    shared: &mut Shared,
    stack: &mut ThreadStack,
    program: &LinkedProgram,
    thread: u16,
    class: u16,
) -> Result<Answer, EventRefusal>
    ensures { Begins program.now result thread class shared.old shared.new stack.old stack.new }
{
    classes_are_read();
    stack.push_initialisation(class, Phase::Super)?;
    set_status(shared, class, ClassStatus::InProgress(thread));
    if let Some(row) = class_at(program, class as u32) {
        set_constants(&mut shared.statics, &row.constants);
    }
    Ok(Answer::Done)
}

/// What comes first of an event that needs a class to be initialised. It answers nothing where the class is ready: then
/// the rest of the event comes, and nothing has changed. Else it answers what became of the event: the thread begins to
/// initialise the class, it waits for the thread that is at it, or a NoClassDefFoundError is pending.
///
/// # Errors
///
/// Where there is no memory, or the error can't be made. Nothing has changed then.
pub fn need_class(
    shared: &mut Shared,
    stack: &mut ThreadStack,
    program: &LinkedProgram,
    thread: u16,
    class: u16,
) -> Result<Option<Answer>, EventRefusal>
    ensures { Needs program.now result thread class shared.old shared.new stack.old stack.new }
{
    match look(shared, thread, class) {
        ClassLook::Ready => Ok(None),
        ClassLook::New => begin(shared, stack, program, thread, class).map(Some),
        ClassLook::Held => Ok(Some(Answer::NotEnabled)),
        ClassLook::Failed => {
            raise(shared, thread, MachineException::NoClassDefFound, 0).map(Some)
        }
    }
}
