//! What an event finds of threads as it begins, and whom it interrupts (JLS 17.4.2, 17.4.4).
//!
//! # Proved
//!
//! - `is_ready`: whether the class that an instruction looks for is there for a thread, in whatever world is shown
//!   (`IsReadyFor`).
//! - `finds_of`: what an event finds by its rule, with what is called, by whatever names (`TellsFinds`): what the
//!   definitions say (`finds_of`).
//! - `interrupt_of`: whom an instruction interrupts (`interrupts_of` of the definitions).
//!
//! # Not proved
//!
//! - That the method and the object handed in are those of the instruction is for whoever calls (`IsCalled`).
//!
//! # Wrong bodies
//!
//! - `finds-held-class-is-ready`: a class that another thread initialises is there; refused by `is_class_ready`.
//! - `finds-interrupted-is-woken`: a thread that was interrupted as it waited finds that it was woken; refused by
//!   `found_by_rule`.

ghost use Rattle.std.specs.Prelude.{◌≡◌};
ghost use Rattle.linked_code.specs.Methods.{built_in_of};
ghost use Rattle.table_actions.specs.tables.Told.{all_found, listed};
ghost use Rattle.race_actions.specs.finds.Finds.{FindsByCall, FindsByRule, IsReadyFor};
ghost use Rattle.race_actions.specs.finds.Finds.{TellsFinds, TellsInterrupt, built_in_method};

use heap::java_threads::WakeCause;
use linked_code::BuiltInMethod;
use machine_state::Shared;
use machine_state::class_initialisation::{ClassLook, look};
use race_places::run_actions::Action;
use table_actions::findings::{Findings, findings_on, interrupt_on};
use thread_calls::thread_methods::ThreadMethod;
use thread_rules::next_rules::NextRule;

/// What is known of the instruction that is next: whether the class that it looks for is there, the method that it
/// runs, if that is one that finds threads, and the object on which it is called.
#[derive(Clone, Copy)]
pub struct Called {
    pub is_ready: bool,
    pub method: Option<ThreadMethod>,
    pub object: u32,
}

/// The built-in method that it is.
fn built_in(method: ThreadMethod) -> BuiltInMethod
    ensures { built_in_of result ≡ built_in_method method }
{
    match method {
        ThreadMethod::Wait => BuiltInMethod::ObjectWait,
        ThreadMethod::Start => BuiltInMethod::ThreadStart,
        ThreadMethod::Interrupt => BuiltInMethod::ThreadInterrupt,
        ThreadMethod::IsInterrupted => BuiltInMethod::ThreadIsInterrupted,
        ThreadMethod::Interrupted => BuiltInMethod::ThreadInterrupted,
        ThreadMethod::Join => BuiltInMethod::ThreadJoin,
        ThreadMethod::IsAlive => BuiltInMethod::ThreadIsAlive,
    }
}

/// Whether the class of a number is there for a thread.
fn is_class_ready(shared: &Shared, thread: u16, class: u16) -> bool
    ensures { IsReadyFor shared.now thread (Some class) result }
{
    match look(shared, thread, class) {
        ClassLook::Ready => true,
        ClassLook::New => false,
        ClassLook::Held => false,
        ClassLook::Failed => false,
    }
}

/// Whether the class that an instruction looks for, if any, is there for a thread.
pub fn is_ready(shared: &Shared, thread: u16, class: Option<u16>) -> bool
    ensures { IsReadyFor shared.now thread class result }
{
    match class {
        Some(class) => is_class_ready(shared, thread, class),
        None => true,
    }
}

/// What a thread finds as it begins, or as it enters a monitor again.
fn found_by_rule(rule: NextRule, thread: u16) -> Option<Action>
    ensures { FindsByRule rule thread result }
{
    match rule {
        NextRule::Begin => Some(Action::Begin(thread)),
        NextRule::Relock { cause, .. } => match cause {
            WakeCause::Notified => Some(Action::FindWoken(thread)),
            WakeCause::Interrupted => Some(Action::FindInterrupted(thread)),
        },
        NextRule::NoEvent => None,
        NextRule::Pending { .. } => None,
        NextRule::Initialisation { .. } => None,
        NextRule::Bytecode => None,
    }
}

/// What an instruction finds by the method that it runs.
fn found_by_call(shared: &Shared, thread: u16, called: Called) -> Findings
    ensures { FindsByCall shared.now thread called result }
{
    let nothing = Findings {
        own: None,
        other: None,
    };
    if !called.is_ready {
        return nothing;
    }
    match called.method {
        Some(method) => findings_on(
            &shared.heap,
            &shared.threads,
            thread,
            called.object,
            built_in(method),
        ),
        None => nothing,
    }
}

/// What the event of a thread finds of threads, by its rule.
pub fn finds_of(shared: &Shared, thread: u16, rule: NextRule, called: Called) -> Findings
    ensures { TellsFinds shared.now thread rule called result }
{
    match rule {
        NextRule::Bytecode => found_by_call(shared, thread, called),
        _ => Findings {
            own: found_by_rule(rule, thread),
            other: None,
        },
    }
}

/// Whom an instruction interrupts by the method that it runs.
pub fn interrupt_of(shared: &Shared, called: Called) -> Option<Action>
    ensures { TellsInterrupt shared.now called result }
{
    if !called.is_ready {
        return None;
    }
    match called.method {
        Some(method) => interrupt_on(
            &shared.heap,
            &shared.threads,
            called.object,
            built_in(method),
        ),
        None => None,
    }
}
