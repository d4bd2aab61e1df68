//! What the next event of a thread reads and writes.
//!
//! # Proved
//!
//! - `push_next_accesses`: in each state to which a run of the accepted class files led and whose words are shown, by
//!   the names of the class files, the reads and writes among the actions of the thread's next event, in their order, or
//!   none where there are none (`TellsNext`, `accesses_next`); the classes and the fields that they name are there, and
//!   each tells whether its field is volatile (`AreAllRight`).
//!
//! # Wrong bodies
//!
//! - `next_access-null-has-an-access`: an instruction that throws does its access; refused by `push_accesses_on`.
//! - `next_access-clone-is-forgotten`: `clone` reads nothing; refused by `push_clone`.

ghost use Rattle.std.specs.Prelude.{◌≡◌, ◌++◌, OnOk, option_map, slice_get};
ghost use Rattle.std.specs.Option.{option_to_list};
ghost use Rattle.thread_stacks.specs.Stacks.{shown_frame};
ghost use Rattle.machine_state.specs.shown_stacks.Shown.{offset_at, starts_of as starts_in};
ghost use Rattle.next_accesses.specs.builder_texts.Texts.{accesses_in};
ghost use Rattle.next_accesses.specs.element_ranges.Ranges.{actions_if};
ghost use Rattle.next_accesses.specs.next_access.Added.{Adds};
ghost use Rattle.next_accesses.specs.next_access.Called.{AccessesBy, ClonesOnTop};
ghost use Rattle.next_accesses.specs.next_access.Next.{TellsFrame, TellsNext, TellsStack};

use crate::access_conditions::goes_on;
use crate::access_tables::AccessTables;
use crate::accesses::{access_of, object_at};
use crate::accessing_calls::{AccessingMethod, accessing_called};
use crate::builder_texts::{TextAccesses, texts_on};
use crate::copied_variables::push_copied;
use crate::element_ranges::{ElementRange, chars_accessed, push_elements};
use crate::read_operands::operands_are_read;
use heap::Heap;
use linked_code::{LinkedProgram, MethodBody};
use machine_state::Shared;
use machine_state::linked_frames::tops_are_shown;
use machine_state::method_selection::method_at;
use model::Instr;
use model::built_in::NO_OFFSET;
use race_places::run_actions::Action;
use run_laws::soundness::no_event_is_wrong;
use run_laws::word_operands::receivers_fit;
use std::alloc::AllocError;
use thread_rules::next_rules::{NextRule, next_rule, rules_are_meant};
use thread_stacks::{Frame, ThreadStack};

/// The offsets at which the instructions of a method stand, by their places.
fn starts_of(body: &MethodBody) -> &[u16]
    ensures { result.now ≡ starts_in body.now }
{
    match body {
        MethodBody::Code(code) => &code.starts,
        MethodBody::Abstract | MethodBody::BuiltIn(_) => &[],
    }
}

/// The offset of a place in the code of a method, by the method's number.
fn offset_of(program: &LinkedProgram, method: u32, place: usize) -> u16
    ensures { result ≡ offset_at program.now method place }
{
    match method_at(program, method) {
        Some(row) => starts_of(&row.body)
            .get(place)
            .copied()
            .unwrap_or(NO_OFFSET),
        None => NO_OFFSET,
    }
}

/// Puts an access behind others, if there is one.
fn push(found: &mut Vec<Action>, access: Option<Action>) -> Result<(), AllocError>
    ensures { OnOk result (found.new.items ≡ found.old.items ++ option_to_list access) }
{
    if let Some(access) = access {
        found.push(access)?;
    }
    Ok(())
}

/// Puts what a method of StringBuilder reads and writes behind other accesses.
fn push_texts(found: &mut Vec<Action>, accesses: TextAccesses) -> Result<(), AllocError>
    ensures { OnOk result (found.new.items ≡ found.old.items ++ accesses_in accesses) }
{
    push(found, accesses.first)?;
    push(found, accesses.second)?;
    push(found, accesses.third)?;
    Ok(())
}

/// Puts the accesses of elements behind others, if there are any.
fn push_range(found: &mut Vec<Action>, range: Option<ElementRange>) -> Result<(), AllocError>
    ensures { OnOk result (found.new.items ≡ found.old.items ++ actions_if range) }
{
    match range {
        Some(range) => push_elements(found, range),
        None => Ok(()),
    }
}

/// Puts what `clone` of the operand on top reads behind other accesses.
fn push_clone(
    found: &mut Vec<Action>,
    tables: &AccessTables<'_>,
    program: &LinkedProgram,
    heap: &Heap,
    frame: &Frame<'_>,
) -> Result<(), AllocError>
    ensures { OnOk result (Adds (ClonesOnTop tables.now.linked.now program.now heap.now.objects
        (shown_frame frame.now).operands) found.old.items found.new.items) }
{
    match object_at(frame, 0) {
        Some(object) => push_copied(found, tables, program, heap, object),
        None => Ok(()),
    }
}

/// Puts what a method without code reads and writes behind other accesses.
fn push_called(
    found: &mut Vec<Action>,
    tables: &AccessTables<'_>,
    program: &LinkedProgram,
    heap: &Heap,
    frame: &Frame<'_>,
    method: AccessingMethod,
) -> Result<(), AllocError>
    ensures { OnOk result (Adds (AccessesBy tables.now.linked.now program.now heap.now.objects
        (shown_frame frame.now).operands method) found.old.items found.new.items) }
{
    match method {
        AccessingMethod::Builds(method) => push_texts(found, texts_on(frame, method)),
        AccessingMethod::Writes(method) => push_range(found, chars_accessed(heap, frame, method)),
        AccessingMethod::Clones => push_clone(found, tables, program, heap, frame),
    }
}

/// Puts what the instruction of the frame on top of a thread that runs reads and writes behind other accesses.
fn push_accesses_on(
    found: &mut Vec<Action>,
    tables: &AccessTables<'_>,
    program: &LinkedProgram,
    shared: &Shared,
    thread: u16,
    frame: &Frame<'_>,
) -> Result<(), AllocError>
    ensures { OnOk result (Adds (TellsFrame tables.now.linked.now program.now shared.now thread
        (shown_frame frame.now)) found.old.items found.new.items) }
{
    no_event_is_wrong();
    receivers_fit();
    operands_are_read();
    tops_are_shown();
    let offset = offset_of(program, frame.method, frame.place);
    let Some(instruction) = tables.instruction_at(frame.method, offset) else {
        return Ok(());
    };
    match accessing_called(tables, program, shared, thread, frame, instruction) {
        Some(method) => push_called(found, tables, program, &shared.heap, frame, method),
        None => {
            let field = tables.field_named(frame.method, offset, instruction);
            if goes_on(program, shared, thread, frame, instruction, field) {
                push(found, access_of(frame, instruction, field))
            } else {
                Ok(())
            }
        }
    }
}

/// Puts what the next event of a thread reads and writes behind other accesses, by the thread's stack.
fn push_accesses_with(
    found: &mut Vec<Action>,
    tables: &AccessTables<'_>,
    program: &LinkedProgram,
    shared: &Shared,
    thread: u16,
    stack: &ThreadStack,
) -> Result<(), AllocError>
    ensures { OnOk result (Adds (TellsStack tables.now.linked.now program.now shared.now thread stack.now)
        found.old.items found.new.items) }
{
    rules_are_meant();
    match next_rule(&shared.threads, stack, thread) {
        NextRule::Bytecode => match stack.frame() {
            Some(frame) => push_accesses_on(found, tables, program, shared, thread, &frame),
            None => Ok(()),
        },
        _ => Ok(()),
    }
}

/// The stack of a thread, if there is such a thread.
fn stack_of(shared: &Shared, thread: u16) -> Option<&ThreadStack>
    ensures { option_map (λ s. s.now) result ≡ slice_get shared.now.stacks.items thread }
{
    shared.stacks.get(usize::from(thread))
}

/// Puts what the next event of a thread reads and writes behind other accesses, in its order. The only error is a want
/// of memory.
pub fn push_next_accesses(
    found: &mut Vec<Action>,
    tables: &AccessTables<'_>,
    program: &LinkedProgram,
    shared: &Shared,
    thread: u16,
) -> Result<(), AllocError>
    ensures { OnOk result (Adds (TellsNext tables.now.linked.now program.now shared.now thread)
        found.old.items found.new.items) }
{
    match stack_of(shared, thread) {
        Some(stack) => push_accesses_with(found, tables, program, shared, thread, stack),
        None => Ok(()),
    }
}
