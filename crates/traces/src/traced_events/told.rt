//! What an event did, by its rule.

use crate::traced_events::before::Before;
use crate::traced_events::deed::Deed;
use crate::traced_events::frames::offset_on_top;
use crate::traced_events::instructions::{After, call_deed, entries_after, instruction_deed};
use crate::traced_events::monitors::entries_of;
use crate::traced_events::rules::Rule;
use heap::java_threads::ThreadStatus;
use linked_code::LinkedProgram;
use machine_state::Shared;
use model::Event;
use thread_stacks::{Phase, Top};

/// What an event of a thread did.
#[derive(Clone, Copy)]
pub struct Told {
    pub deed: Deed,
    /// The exception that is pending since.
    pub throws: Option<u32>,
    /// Whether the thread has ended by it, and with which exception.
    pub ends: Option<Option<u32>>,
}

/// What the event of an instruction did.
fn bytecode_deed(before: &Before, after: &After<'_>) -> Deed {
    let is_same = after.stack.frame_count() == before.frames;
    match after.stack.top() {
        Top::Initialisation { class, .. } if is_same => Deed::BeginsInitialisation { class },
        _ => match before.instruction {
            Some(instruction) => instruction_deed(before, after, instruction),
            None => Deed::Nothing,
        },
    }
}

/// What the event of a thread did that began.
fn begin_deed(after: &After<'_>) -> Deed {
    match after.stack.top() {
        Top::Initialisation { class, .. } => Deed::BeginsInitialisation { class },
        Top::Invocation => call_deed(after),
        Top::Empty => Deed::Nothing,
    }
}

/// What a step of the initialisation of a class did.
fn initialisation_deed(before: &Before, after: &After<'_>, class: u16, phase: Phase) -> Deed {
    if let Phase::End = phase {
        return Deed::EndsInitialisation { class };
    }
    match after.stack.top() {
        Top::Initialisation { class: other, .. } if other != class => {
            Deed::BeginsInitialisation { class: other }
        }
        Top::Initialisation { .. } => Deed::NeedsNoInitialiser { class },
        Top::Invocation if after.stack.frame_count() > before.frames => call_deed(after),
        Top::Invocation | Top::Empty => Deed::Nothing,
    }
}

/// What the event of a thread did in which an exception was pending.
fn pending_deed(before: &Before, after: &After<'_>, exception: u32) -> Deed {
    match before.frame {
        Some(frame) if after.stack.frame_count() < before.frames => Deed::Leaves {
            method: frame.method,
            exception,
            exited: entries_after(after, frame.entered),
        },
        Some(_) => Deed::Catches {
            exception,
            offset: after.offset,
        },
        None => match before.class {
            Some(class) => Deed::FailsInitialisation { class },
            None => Deed::Nothing,
        },
    }
}

/// What an event did that threw nothing.
fn deed_of(before: &Before, after: &After<'_>) -> Deed {
    match before.rule {
        Rule::NoEvent => Deed::Nothing,
        Rule::Relock { object, cause, .. } => Deed::EntersAgain {
            entries: entries_of(&after.shared.heap, object, after.thread),
            cause,
        },
        Rule::Pending { exception } => pending_deed(before, after, exception),
        Rule::Begin => begin_deed(after),
        Rule::Initialisation { class, phase } => initialisation_deed(before, after, class, phase),
        Rule::Bytecode => bytecode_deed(before, after),
    }
}

/// The exception that is pending in a thread since its event.
fn thrown(before: &Before, shared: &Shared, thread: u16) -> Option<u32> {
    let pending = shared.threads.pending(thread)?;
    match before.rule {
        Rule::Pending { exception } if exception == pending => None,
        _ => Some(pending),
    }
}

/// Whether a thread has ended, and with which exception.
fn ended(shared: &Shared, thread: u16) -> Option<Option<u32>> {
    match shared.threads.status(thread) {
        ThreadStatus::Ended(exception) => Some(exception),
        _ => None,
    }
}

/// What an event did of a thread that was so before it, by the state after it.
pub fn told_of(before: &Before, shared: &Shared, program: &LinkedProgram, event: Event) -> Told {
    let thread = event.thread;
    let throws = thrown(before, shared, thread);
    let deed = match shared.stacks.get(usize::from(thread)) {
        Some(stack) => {
            let after = After {
                shared,
                stack,
                program,
                thread,
                pick: event.pick,
                offset: offset_on_top(program, stack),
            };
            match (before.rule, throws) {
                (Rule::Relock { .. } | Rule::Pending { .. }, _) | (_, None) => {
                    deed_of(before, &after)
                }
                (_, Some(_)) => Deed::Nothing,
            }
        }
        None => Deed::Nothing,
    };
    Told {
        deed,
        throws,
        ends: ended(shared, thread),
    }
}
