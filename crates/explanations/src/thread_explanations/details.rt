//! What is told below the lines of a report.

ghost use Rattle.std.specs.Prelude.{IfOk};
ghost use Rattle.std.specs.Arc.{arc_value};
ghost use Rattle.machine.specs.Machines.{IsOfAccepted};
ghost use Rattle.explanations.specs.thread_explanations.Details.{HasWaits};

use crate::thread_explanations::cycles::cycles;
use crate::thread_explanations::lines::{Facts, ThreadFacts};
use crate::thread_explanations::stacks::StackPlaces;
use crate::thread_explanations::throws::{Thrown, throws_of};
use crate::thread_explanations::waits::{Wait, each_wait};
use linked_code::LinkedProgram;
use linker::Linked;
use machine_state::Shared;
use model::{EndState, Limits};
use schedule::Schedule;
use std::alloc::{AllocError, Global};
use std::sync::Arc;
use thread_stacks::ThreadStack;
use traces::ProgramNames;

/// What is told of the threads of a run, in lines.
#[derive(Drop)]
pub(crate) struct Details {
    /// Of each thread, by its number.
    pub(crate) threads: Vec<Vec<Vec<u8>>>,
    /// For what each thread waits, by its number.
    pub(crate) waits: Vec<Wait>,
    /// The cycles of threads that wait for each other.
    pub(crate) cycles: Vec<Vec<u16>>,
}

/// Where the frames of the thread of a number stand.
fn places_of(
    alloc: Global,
    stacks: &[ThreadStack],
    thread: usize,
) -> Result<StackPlaces, AllocError> {
    match stacks.get(thread) {
        Some(stack) => StackPlaces::of(alloc, stack),
        None => StackPlaces::copied(alloc, None, &[]),
    }
}

/// What is known of each thread.
fn facts_of(
    alloc: Global,
    stacks: &[ThreadStack],
    ends: &[EndState],
    waits: &[Wait],
    throws: Vec<Thrown>,
) -> Result<Vec<ThreadFacts>, AllocError> {
    let mut throws = throws.into_iter();
    let mut facts = Vec::new(alloc);
    for (thread, wait) in waits.iter().enumerate() {
        let thrown = throws.next();
        let thrown = match ends.get(thread) {
            Some(EndState::Threw(_)) => thrown,
            _ => None,
        };
        let stack = places_of(alloc, stacks, thread)?;
        facts.push(ThreadFacts {
            wait: *wait,
            stack,
            thrown,
        })?;
    }
    Ok(facts)
}

/// The lines of each thread that stands so.
fn thread_lines(
    alloc: Global,
    facts: Facts<'_>,
    ends: &[EndState],
) -> Result<Vec<Vec<Vec<u8>>>, AllocError> {
    let mut threads = Vec::new(alloc);
    for (thread, end) in ends.iter().enumerate() {
        let number = u16::try_from(thread).unwrap_or(u16::MAX);
        threads.push(match end {
            EndState::Ended => Vec::new(alloc),
            _ => facts.lines(number)?,
        })?;
    }
    Ok(threads)
}

/// The lines of each thread of those that share this, of which this is known, and that stand so.
fn lines_in<'a>(
    alloc: Global,
    linked: &'a Linked,
    program: &'a Arc<LinkedProgram>,
    shared: &'a Shared,
    threads: &'a [ThreadFacts],
    ends: &'a [EndState],
) -> Result<Vec<Vec<Vec<u8>>>, AllocError> {
    let names = ProgramNames::new(alloc, linked, program)?;
    let facts = Facts {
        alloc,
        names: &names,
        shared,
        threads,
        ends,
    };
    thread_lines(alloc, facts, ends)
}

/// What is told of threads that share this, and that stand so.
fn details_in(
    alloc: Global,
    linked: &Linked,
    program: &Arc<LinkedProgram>,
    shared: &Shared,
    ends: &[EndState],
    throws: Vec<Thrown>,
) -> Result<Details, AllocError>
    ensures { IfOk result (HasWaits (arc_value program.now) shared.now ends.now) }
{
    let waits = each_wait(alloc, shared, program, ends)?;
    let found = cycles(alloc, &waits)?;
    let facts = facts_of(alloc, &shared.stacks, ends, &waits, throws)?;
    let threads = lines_in(alloc, linked, program, shared, &facts, ends)?;
    Ok(Details {
        threads,
        waits,
        cycles: found,
    })
}

/// What is told of threads that share this after the events of the schedule, and that stand so. The events are done
/// again where an exception ended a thread.
pub(crate) fn details_of(
    alloc: Global,
    linked: &Linked,
    program: &Arc<LinkedProgram>,
    schedule: &Schedule,
    limits: Limits,
    shared: &Shared,
    ends: &[EndState],
) -> Result<Details, AllocError>
    requires { IsOfAccepted (arc_value program.now) }
    ensures { IfOk result (HasWaits (arc_value program.now) shared.now ends.now) }
{
    let throws = throws_of(alloc, program, schedule, limits, shared)?;
    details_in(alloc, linked, program, shared, ends, throws)
}
