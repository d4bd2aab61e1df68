//! By which rule a thread's event goes.
//!
//! # Proved
//!
//! - `next_rule`: the rule of the event of a thread, by what the thread is about and by its stack (`IsRule`).
//! - In each state that a machine shows, that is the rule of the definitions (`rules_are_meant`, `MeansRule`): a thread
//!   at an instruction stands at the linked instruction of its place, whose meaning over words looks for the same class
//!   and wants the same operands as that over values.
//!
//! # Wrong bodies
//!
//! - `next_rules-pending-goes-on`: a thread with a pending exception goes on as if it had none; refused by `next_rule`.

ghost use Rattle.heap.specs.java_threads.Table.{thread_at};
ghost use Rattle.thread_rules.specs.next_rules.Rules.{IsGoing, IsRule};
ghost use Rattle.thread_rules.specs.next_rules.Meant.{AreRulesMeant};

use heap::java_threads::{ThreadStatus, Threads, WakeCause};
use machine_state::linked_frames::frames_stand;
use machine_state::state_events::stacks_are_lent;
use thread_stacks::{Phase, ThreadStack, Top};

/// By which rule the event of a thread goes.
#[derive(Clone, Copy)]
pub enum NextRule {
    /// The thread waits or has ended: no event of it is enabled.
    NoEvent,
    /// The thread has left the wait set of an object, and enters its monitor again, as often as before.
    Relock {
        object: u32,
        count: u32,
        cause: WakeCause,
    },
    /// An exception is pending.
    Pending {
        exception: u32,
    },
    /// The stack of the thread is empty: it begins.
    Begin,
    /// The thread initialises a class, by its number.
    Initialisation {
        class: u16,
        phase: Phase,
    },
    /// The instruction of the frame on top is next.
    Bytecode,
}

/// The rule of a thread that runs, by what is on top of its stack.
fn going_rule(stack: &ThreadStack) -> NextRule
    ensures { IsGoing stack.now result }
{
    match stack.top() {
        Top::Empty => NextRule::Begin,
        Top::Initialisation { class, phase } => NextRule::Initialisation { class, phase },
        Top::Invocation => NextRule::Bytecode,
    }
}

/// The rule of a thread, by its number and with its stack.
pub fn next_rule(threads: &Threads, stack: &ThreadStack, thread: u16) -> NextRule
    ensures { IsRule (thread_at threads.now.threads thread) stack.now result }
{
    match threads.status(thread) {
        ThreadStatus::Waiting { .. } => NextRule::NoEvent,
        ThreadStatus::Ended(_) => NextRule::NoEvent,
        ThreadStatus::Relock {
            object,
            count,
            cause,
        } => NextRule::Relock {
            object,
            count,
            cause,
        },
        ThreadStatus::Running => match threads.pending(thread) {
            Some(exception) => NextRule::Pending { exception },
            None => going_rule(stack),
        },
    }
}

/// The rule that is told is that of the definitions, in each state that is shown.
pub fn rules_are_meant()
    ensures holds { AreRulesMeant }
{
    stacks_are_lent();
    frames_stand();
}
