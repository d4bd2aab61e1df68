//! Whether the state that a machine shows is racy: the next events of two threads do conflicting accesses (JLS 17.4.5).
//!
//! # Proved
//!
//! - `is_racy`, memory aside: of whatever run of the accepted class files the machine has done, whether the state to
//!   which that led is racy (`TellsState`, `IsRacy`).
//! - `racing`, memory aside: a race exactly where that state is racy, and the accesses that it tells conflict and are
//!   among those of the next events of its threads (`TellsRace`).
//!
//! # Not proved
//!
//! - Which race is told where there are several.
//!
//! # Wrong bodies
//!
//! - `racy_states-volatile-races`: accesses of volatile variables conflict; refused by `conflict`.
//! - `racy_states-reads-race`: two reads conflict; refused by `conflict`.

ghost use Rattle.std.specs.Prelude.{◌≡◌, IfOk, OnOk};
ghost use Rattle.data_races.specs.Races.{IsRacy};
ghost use Rattle.next_accesses.specs.racy_states.Racy.{AreNext, IsConflictIn, IsRaceIn, TellsRace, TellsState};
ghost use Rattle.next_accesses.specs.racy_states.Racy as racy;

use crate::access_tables::AccessTables;
use crate::next_access::push_next_accesses;
use field_names::named_fields::names_are_apart;
use linked_code::LinkedProgram;
use machine::Machine;
use machine_state::Shared;
use race_places::run_actions::{Action, RunAction, Variable};
use std::alloc::{AllocError, Global};

/// The next events of two threads do conflicting accesses: a thread with its access, and the other one with its own.
#[derive(Clone, Copy)]
pub struct Race {
    pub thread: u16,
    pub access: Action,
    pub other: u16,
    pub other_access: Action,
}

/// Whether two variables are one.
fn is_same_variable(variable: Variable, other: Variable) -> bool
    ensures { result ≡ racy.is_same_variable variable other }
{
    match (variable, other) {
        (
            Variable::InstanceField {
                object,
                class,
                field,
            },
            Variable::InstanceField {
                object: other_object,
                class: other_class,
                field: other_field,
            },
        ) => object == other_object && (class == other_class && field == other_field),
        (
            Variable::StaticField { class, field },
            Variable::StaticField {
                class: other_class,
                field: other_field,
            },
        ) => class == other_class && field == other_field,
        (
            Variable::Element { array, index },
            Variable::Element {
                array: other_array,
                index: other_index,
            },
        ) => array == other_array && index == other_index,
        _ => false,
    }
}

/// Whether an action writes a variable.
fn writes(variable: Variable, action: Action) -> bool
    ensures { result ≡ racy.writes variable action }
{
    match action {
        Action::Write {
            variable: other,
            ..
        } => is_same_variable(variable, other),
        _ => false,
    }
}

/// Whether an action reads a variable.
fn reads(variable: Variable, action: Action) -> bool
    ensures { result ≡ racy.reads variable action }
{
    match action {
        Action::Read {
            variable: other,
            ..
        } => is_same_variable(variable, other),
        _ => false,
    }
}

/// Whether two actions conflict: they access one variable that is not volatile, and one of them writes it (17.4.1).
fn conflict(action: Action, other: Action) -> bool
    ensures { result ≡ racy.conflict action other }
{
    match action {
        Action::Read {
            variable,
            is_volatile,
        } => !is_volatile && writes(variable, other),
        Action::Write {
            variable,
            is_volatile,
        } => !is_volatile && (writes(variable, other) || reads(variable, other)),
        _ => false,
    }
}

/// The first of these actions that conflicts with an action of another thread.
fn first_conflict(action: RunAction, others: &[RunAction]) -> Option<RunAction>
    ensures { IsConflictIn action others.now result }
{
    'others: for at in 0..others.len() {
        let other = others[at];
        if action.thread != other.thread && conflict(action.action, other.action) {
            return Some(other);
        }
    }
    None
}

/// Two of these actions that conflict, of different threads: the first that conflicts with any, and the first of those.
fn race_among(actions: &[RunAction]) -> Option<Race>
    ensures { IsRaceIn actions.now result }
{
    'actions: for at in 0..actions.len() {
        let action = actions[at];
        if let Some(other) = first_conflict(action, actions) {
            return Some(Race {
                thread: action.thread,
                access: action.action,
                other: other.thread,
                other_access: other.action,
            });
        }
    }
    None
}

/// Adds what the next event of a thread reads and writes.
fn add_accesses(
    found: &mut Vec<RunAction>,
    thread: u16,
    accesses: &[Action],
) -> Result<(), AllocError>
    ensures { OnOk result (found.new.items ≡ racy.with_accesses thread accesses.now found.old.items) }
{
    'accesses: for at in 0..accesses.len() {
        found.push(RunAction {
            thread,
            event: 0,
            action: accesses[at],
        })?;
    }
    Ok(())
}

/// What the next events of the first threads read and write, of so many threads. The only error is a want of memory.
fn next_accesses(
    alloc: Global,
    tables: &AccessTables<'_>,
    program: &LinkedProgram,
    shared: &Shared,
    threads: u16,
) -> Result<Vec<RunAction>, AllocError>
    ensures { IfOk result (λ found. AreNext tables.now.linked.now program.now shared.now threads found.items) }
{
    let mut found = Vec::new(alloc);
    let mut accesses = Vec::new(alloc);
    'threads: for thread in 0..threads {
        accesses.clear();
        push_next_accesses(&mut accesses, tables, program, shared, thread)?;
        add_accesses(&mut found, thread, &accesses)?;
    }
    Ok(found)
}

/// Two threads whose next events do conflicting accesses, if there are any: the lowest of such threads, and the lowest
/// that races with it. The only error is a want of memory.
pub fn racing(
    alloc: Global,
    tables: &AccessTables<'_>,
    machine: &Machine,
) -> Result<Option<Race>, AllocError>
    ensures { IfOk result (TellsRace tables.now.linked.now machine.now) }
{
    names_are_apart(tables.linked);
    let shared = machine.shared();
    let threads = shared.threads.len() as u16;
    let found = next_accesses(alloc, tables, machine.program(), shared, threads)?;
    Ok(race_among(&found))
}

/// Whether the next events of two threads do conflicting accesses. The only error is a want of memory.
pub fn is_racy(
    alloc: Global,
    tables: &AccessTables<'_>,
    machine: &Machine,
) -> Result<bool, AllocError>
    ensures { IfOk result (TellsState tables.now.linked.now machine.now IsRacy) }
{
    Ok(racing(alloc, tables, machine)?.is_some())
}
