//! The states to which events lead from a state.

ghost use Rattle.std.specs.Prelude.{◌<◌, length, IfOk, IsFalse};
ghost use Rattle.search.specs.States.{IsAfter, IsStateOf, HasGoneFrom, IsMetFrom, AreMetByThread, AreMetByThreads, AreAllMet, GrowsTo};
ghost use Rattle.search.specs.Walks.{IsThere};

use crate::machines::{do_more, go_on, go_past};
use crate::met_states::{higher_picks_are_left, met_states_are_kept, other_threads_are_left};
use crate::states::{States, Walk};
use kept_states::Numbered;
use machine::Machine;
use machine_state::Answer;
use model::{Event, ScheduleEntry};
use std::alloc::{AllocError, Global};

/// A machine that has done the events of an entry from a state: this one, unless it has done one more; else that state
/// is taken up again, and they are done once more. The only error is a want of memory.
fn settled(
    states: &States,
    number: u32,
    state: &Numbered,
    machine: Machine,
    entry: ScheduleEntry,
    is_past: bool,
) -> Result<Machine, AllocError>
    requires number { number < length states.now.schedules }
    requires state { IsStateOf states.now number state.now }
    requires done { IsFalse is_past → IsAfter states.now number entry machine }
    ensures { IfOk result (IsAfter states.now number entry) }
{
    if !is_past {
        return Ok(machine);
    }
    let mut machine = states.again(number, machine, state)?;
    do_more(&mut machine, entry.event, entry.repeat)?;
    Ok(machine)
}

/// Adds the state to which an event led from a state, and takes the machine that did the event back to that one.
/// Answers false where there would be more states than so many. The only error is a want of memory.
fn meet(
    alloc: Global,
    walk: Walk,
    number: u32,
    state: &Numbered,
    event: Event,
    most: u32,
) -> Result<(bool, Walk), AllocError>
    requires number { number < length walk.states.schedules }
    requires state { IsStateOf walk.states number state.now }
    requires has_gone { HasGoneFrom walk.states number event walk.machine }
    ensures { IfOk result (λ r. GrowsTo (λ s. IsMetFrom s number event × IsThere s number r.1) most walk.states
        r.1.states r.0) }
{
    let Walk {
        states,
        mut machine,
        moved: _,
    } = walk;
    let (entry, is_past) = go_past(alloc, &mut machine, event)?;
    let after = settled(&states, number, state, machine, entry, is_past)?;
    let (added, states) = states.add(number, state, entry, &after, most)?;
    let machine = states.again(number, after, state)?;
    let walk = Walk {
        states,
        machine,
        moved: true,
    };
    Ok((added, walk))
}

/// Adds the states to which the events of a thread lead from a state, in which the machine is, and is again at the
/// end. Answers false where it gives up: there would be more states than so many, a limit forbids an event, or each
/// of the first 65,535 picks is enabled. The only error is a want of memory.
fn expand_thread(
    alloc: Global,
    walk: Walk,
    number: u32,
    state: &Numbered,
    thread: u16,
    most: u32,
) -> Result<(bool, Walk), AllocError>
    requires number { number < length walk.states.schedules }
    requires state { IsStateOf walk.states number state.now }
    requires there { IsThere walk.states number walk }
    ensures { IfOk result (λ r. GrowsTo (λ s. AreMetByThread s number thread × IsThere s number r.1) most walk.states
        r.1.states r.0) }
{
    higher_picks_are_left();
    met_states_are_kept();
    let mut walk = walk;
    'picks: for pick in 0..u16::MAX {
        let event = Event { thread, pick };
        match go_on(&mut walk.machine, event)? {
            Some(Answer::Done) => {
                let (added, further) = meet(alloc, walk, number, state, event, most)?;
                walk = further;
                if !added {
                    return Ok((false, walk));
                }
            }
            Some(Answer::NotEnabled) => return Ok((true, walk)),
            None => return Ok((false, walk)),
        }
    }
    Ok((false, walk))
}

/// Adds the states to which the events of the first threads lead from a state, in which the machine is, of so many
/// threads. Answers false where it gives up.
fn expand_threads(
    alloc: Global,
    walk: Walk,
    number: u32,
    state: &Numbered,
    threads: u16,
    most: u32,
) -> Result<(bool, Walk), AllocError>
    requires number { number < length walk.states.schedules }
    requires state { IsStateOf walk.states number state.now }
    requires there { IsThere walk.states number walk }
    ensures { IfOk result (λ r. GrowsTo (λ s. AreMetByThreads s number threads × IsThere s number r.1) most walk.states
        r.1.states r.0) }
{
    met_states_are_kept();
    let mut walk = walk;
    'threads: for thread in 0..threads {
        let (went_on, further) = expand_thread(alloc, walk, number, state, thread, most)?;
        walk = further;
        if !went_on {
            return Ok((false, walk));
        }
    }
    Ok((true, walk))
}

/// Adds the states to which events lead from a state, in which the machine is, and is again at the end. Answers false
/// where it gives up.
fn expand_state(
    alloc: Global,
    walk: Walk,
    number: u32,
    state: &Numbered,
    most: u32,
) -> Result<(bool, Walk), AllocError>
    requires number { number < length walk.states.schedules }
    requires state { IsStateOf walk.states number state.now }
    requires there { IsThere walk.states number walk }
    ensures { IfOk result (λ r. GrowsTo (λ s. AreAllMet s number × IsThere s number r.1) most walk.states r.1.states
        r.0) }
{
    other_threads_are_left();
    let threads = walk.machine.shared().threads.len() as u16;
    expand_threads(alloc, walk, number, state, threads, most)
}

/// Takes the machine to the state of a number, and adds the states to which events lead from there. Answers false where
/// it gives up.
pub(crate) fn expand(
    alloc: Global,
    walk: Walk,
    number: u32,
    most: u32,
) -> Result<(bool, Walk), AllocError>
    requires { number < length walk.states.schedules }
    ensures { IfOk result (λ r. GrowsTo (λ s. AreAllMet s number × IsThere s number r.1) most walk.states r.1.states
        r.0) }
{
    let Walk {
        states,
        machine,
        ..
    } = walk;
    let state = states.state(number)?;
    let machine = states.again(number, machine, &state)?;
    let walk = Walk {
        states,
        machine,
        moved: false,
    };
    expand_state(alloc, walk, number, &state, most)
}
