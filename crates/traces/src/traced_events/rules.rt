//! By which rule a thread's event goes.

use heap::java_threads::{ThreadStatus, WakeCause};
use machine_state::Shared;
use thread_stacks::{Phase, ThreadStack, Top};

/// By which rule the event of a thread goes (JVMS 2.6, 2.10, 5.2, 5.5; JLS 17).
#[derive(Clone, Copy)]
pub enum Rule {
    /// The thread waits or has ended: no event of it is enabled.
    NoEvent,
    /// The thread has left the wait set of an object, and enters its monitor again, as often as before.
    Relock {
        object: u32,
        count: u32,
        cause: WakeCause,
    },
    /// An exception is pending.
    Pending {
        exception: u32,
    },
    /// The stack of the thread is empty: it begins.
    Begin,
    /// The thread initialises a class, by its number.
    Initialisation {
        class: u16,
        phase: Phase,
    },
    /// The instruction of the frame on top is next.
    Bytecode,
}

/// The rule of a thread that runs, by what is on top of its stack.
fn going_rule(stack: &ThreadStack) -> Rule {
    match stack.top() {
        Top::Empty => Rule::Begin,
        Top::Initialisation { class, phase } => Rule::Initialisation { class, phase },
        Top::Invocation => Rule::Bytecode,
    }
}

/// The rule of a thread, by its number and with its stack.
pub fn rule_of(shared: &Shared, stack: &ThreadStack, thread: u16) -> Rule {
    match shared.threads.status(thread) {
        ThreadStatus::Waiting { .. } | ThreadStatus::Ended(_) => Rule::NoEvent,
        ThreadStatus::Relock {
            object,
            count,
            cause,
        } => Rule::Relock {
            object,
            count,
            cause,
        },
        ThreadStatus::Running => match shared.threads.pending(thread) {
            Some(exception) => Rule::Pending { exception },
            None => going_rule(stack),
        },
    }
}
