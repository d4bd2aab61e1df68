//! What is known of an event before it is done.
//!
//! # Proved
//!
//! - `looked_at`: in each state to which a run of the accepted class files led and whose words are shown, of the next
//!   event of a thread: what it finds of classes and threads, and whom it interrupts, by the names of the class files
//!   those of the definitions; the one monitor that it may lock or unlock, but for one that a new invocation enters;
//!   and what has to be known of the state besides to tell its other actions once it is done (`KnowsEvent`, `IsKnown`).
//!
//! # Wrong bodies
//!
//! - `looking-any-class-is-known`: an instruction looks for no class; refused by `class_of`.
//! - `looking-frame-initialises`: no class is told whose initialisation is on top; refused by `class_on_top`.

ghost use Rattle.std.specs.Prelude.{◌≡◌, false};
ghost use Rattle.thread_stacks.specs.Stacks.{shown_frame};
ghost use Rattle.machine_state.specs.shown_stacks.Shown.{offset_at, starts_of as starts_in};
ghost use Rattle.race_actions.specs.looking.Known.{InitialisesOnTop, IsFinishedIf, LooksOnTop};
ghost use Rattle.race_actions.specs.looking.Known.{KnowsBy, KnowsCall, KnowsEvent, KnowsFrame};

use crate::finds::{Called, finds_of, interrupt_of, is_ready};
use crate::race_tables::RaceTables;
use linked_code::{LinkedProgram, MethodBody};
use machine_state::Shared;
use machine_state::linked_frames::{instruction_at, tops_are_shown};
use machine_state::method_selection::method_at;
use model::Instr;
use model::built_in::NO_OFFSET;
use next_accesses::read_operands::operands_are_read;
use race_places::run_actions::Action;
use run_laws::soundness::no_event_is_wrong;
use run_laws::word_operands::receivers_fit;
use state_actions::changed_monitors::MonitorBefore;
use state_actions::class_ends::{found_class, is_finished};
use state_actions::looked_classes::class_looked;
use state_actions::meant_before::meant_before;
use table_actions::changes::owns;
use table_actions::findings::Findings;
use thread_calls::thread_methods::thread_method_called;
use thread_rules::needed_classes::class_needed_by;
use thread_rules::next_rules::{NextRule, next_rule, rules_are_meant};
use thread_stacks::{Frame, ThreadStack, Top};

/// What is known of an event of a thread before it is done.
#[derive(Clone, Copy)]
pub(crate) struct EventBefore {
    /// By which action it finds the class that it needs first.
    pub(crate) found_class: Option<Action>,
    pub(crate) finds: Findings,
    pub(crate) interrupt: Option<Action>,
    /// The monitor that it may lock or unlock, but for one that a new invocation enters.
    pub(crate) monitor: MonitorBefore,
    /// How many entries the stack of the thread has.
    pub(crate) depth: usize,
    /// How many threads there are.
    pub(crate) threads: usize,
    pub(crate) was_interrupted: bool,
    /// The class that the thread initialises on top of its stack, and whether that is done.
    pub(crate) class: Option<u16>,
    pub(crate) was_finished: bool,
    pub(crate) site: CodeSite,
}

/// Where an instruction stands: the number of its method, and its offset there.
#[derive(Clone, Copy, PartialEq, Eq)]
pub struct CodeSite {
    pub method: u32,
    pub offset: u16,
}

/// What is known of the frame on top before its instruction: where it stands, the instruction, the class that it looks
/// for, and what it calls.
#[derive(Clone, Copy)]
struct Standing {
    site: CodeSite,
    instruction: Option<Instr>,
    class: Option<u16>,
    called: Called,
}

/// The offsets at which the instructions of a method stand, by their places.
fn starts_of(body: &MethodBody) -> &[u16]
    ensures { result.now ≡ starts_in body.now }
{
    match body {
        MethodBody::Code(code) => &code.starts,
        MethodBody::Abstract | MethodBody::BuiltIn(_) => &[],
    }
}

/// The offset of a place in the code of a method, by the method's number.
fn offset_of(program: &LinkedProgram, method: u32, place: usize) -> u16
    ensures { result ≡ offset_at program.now method place }
{
    match method_at(program, method) {
        Some(row) => starts_of(&row.body)
            .get(place)
            .copied()
            .unwrap_or(NO_OFFSET),
        None => NO_OFFSET,
    }
}

/// Nothing is known.
fn standing_nowhere() -> Standing
    ensures { result.called.is_ready ≡ false }
{
    Standing {
        site: CodeSite {
            method: 0,
            offset: NO_OFFSET,
        },
        instruction: None,
        class: None,
        called: Called {
            is_ready: false,
            method: None,
            object: 0,
        },
    }
}

/// The class that the instruction of the frame on top looks for.
fn class_of(program: &LinkedProgram, stack: &ThreadStack) -> Option<u16>
    ensures { LooksOnTop program.now stack.now result }
{
    match instruction_at(program, stack) {
        Some(instruction) => class_looked(instruction),
        None => None,
    }
}

/// What the instruction of the frame on top calls, by the class that it looks for.
fn called_by(
    tables: &RaceTables<'_>,
    program: &LinkedProgram,
    shared: &Shared,
    thread: u16,
    frame: &Frame<'_>,
    instruction: Instr,
    class: Option<u16>,
) -> Called
    ensures { KnowsCall tables.now.linked.now program.now shared.now thread (shown_frame frame.now) instruction class
        result }
{
    Called {
        is_ready: is_ready(shared, thread, class),
        method: thread_method_called(&tables.calls, program, shared, thread, frame, instruction),
        object: frame.operand(0).saturating_sub(1),
    }
}

/// What is known of the frame on top of a thread that runs its instruction.
fn standing_in(
    tables: &RaceTables<'_>,
    program: &LinkedProgram,
    shared: &Shared,
    thread: u16,
    stack: &ThreadStack,
    frame: &Frame<'_>,
) -> Standing
    ensures { KnowsFrame tables.now.linked.now program.now shared.now thread stack.now (shown_frame frame.now) result }
{
    no_event_is_wrong();
    receivers_fit();
    operands_are_read();
    tops_are_shown();
    let offset = offset_of(program, frame.method, frame.place);
    let class = class_of(program, stack);
    match tables.calls.instruction_at(frame.method, offset) {
        Some(instruction) => Standing {
            site: CodeSite {
                method: frame.method,
                offset,
            },
            instruction: Some(instruction),
            class,
            called: called_by(tables, program, shared, thread, frame, instruction, class),
        },
        None => standing_nowhere(),
    }
}

/// The same of a thread by the rule of its event.
fn standing_by(
    tables: &RaceTables<'_>,
    program: &LinkedProgram,
    shared: &Shared,
    thread: u16,
    stack: &ThreadStack,
    rule: NextRule,
) -> Standing
    ensures { KnowsBy tables.now.linked.now program.now shared.now thread stack.now rule result }
{
    match rule {
        NextRule::Bytecode => match stack.frame() {
            Some(frame) => standing_in(tables, program, shared, thread, stack, &frame),
            None => standing_nowhere(),
        },
        _ => standing_nowhere(),
    }
}

/// The class whose initialisation is on top of a stack.
fn class_on_top(stack: &ThreadStack) -> Option<u16>
    ensures { InitialisesOnTop stack.now result }
{
    match stack.top() {
        Top::Initialisation { class, .. } => Some(class),
        Top::Empty => None,
        Top::Invocation => None,
    }
}

/// Whether a class is done, if there is one.
fn was_finished(shared: &Shared, class: Option<u16>) -> bool
    ensures { IsFinishedIf shared.now class result }
{
    match class {
        Some(class) => is_finished(shared, class),
        None => false,
    }
}

/// What is known of the next event of a thread, by its stack.
pub(crate) fn looked_at(
    tables: &RaceTables<'_>,
    program: &LinkedProgram,
    shared: &Shared,
    thread: u16,
    stack: &ThreadStack,
) -> EventBefore
    ensures { KnowsEvent tables.now.linked.now program.now shared.now thread stack.now result }
{
    rules_are_meant();
    let rule = next_rule(&shared.threads, stack, thread);
    let standing = standing_by(tables, program, shared, thread, stack, rule);
    let needed = class_needed_by(program, rule, thread, standing.class);
    let object = meant_before(rule, stack, standing.instruction);
    let class = class_on_top(stack);
    EventBefore {
        found_class: found_class(shared, needed),
        finds: finds_of(shared, thread, rule, standing.called),
        interrupt: interrupt_of(shared, standing.called),
        monitor: MonitorBefore {
            object,
            was_owner: owns(&shared.heap, thread, object),
        },
        depth: stack.len(),
        threads: shared.threads.len(),
        was_interrupted: shared.threads.interrupted(thread),
        class,
        was_finished: was_finished(shared, class),
        site: standing.site,
    }
}
