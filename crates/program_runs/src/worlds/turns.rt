//! Whose turn it is.

ghost use Rattle.std.specs.Prelude.{IfSome};
ghost use Rattle.program_runs.specs.policies.Drawn.{AreAble, IsAbleAt};
ghost use Rattle.program_runs.specs.worlds.Turns.{IsFirst, IsFound, IsFoundDownwards, IsLast, MayGo, MayStep};

use machine::Machine;
use machine::thread_standings::may_step;

/// Whether a thread of a machine has an event that is enabled.
fn may(machine: &Machine, thread: u16) -> bool
    ensures { MayStep machine.now thread result }
{
    let frames = machine.limits().frames as usize;
    may_step(machine.shared(), machine.program(), thread, frames)
}

/// The first thread from a number up to another that has an event which is enabled.
fn first_between(machine: &Machine, from: u16, to: u16) -> Option<u16>
    ensures { IsFirst machine.now from to result }
{
    'threads: for thread in from..to {
        if may(machine, thread) {
            return Some(thread);
        }
    }
    None
}

/// The first thread that has an event which is enabled, in rotation: from a number up, and then from 0.
pub(crate) fn first_enabled(machine: &Machine, from: u16) -> Option<u16>
    ensures { IsFound machine.now from result }
{
    let count = machine.shared().threads.len() as u16;
    match first_between(machine, from, count) {
        Some(thread) => Some(thread),
        None => first_between(machine, 0, from.min(count)),
    }
}

/// The last thread from a number up to another that has an event which is enabled.
fn last_between(machine: &Machine, from: u16, to: u16) -> Option<u16>
    ensures { IsLast machine.now from to result }
{
    'threads: for thread in (from..to).rev() {
        if may(machine, thread) {
            return Some(thread);
        }
    }
    None
}

/// The first thread that has an event which is enabled, in rotation downwards: below a number, and then from the last
/// thread down.
pub(crate) fn first_enabled_below(machine: &Machine, number: u16) -> Option<u16>
    ensures { IsFoundDownwards machine.now number result }
{
    let count = machine.shared().threads.len() as u16;
    let seam = number.min(count);
    match last_between(machine, 0, seam) {
        Some(thread) => Some(thread),
        None => last_between(machine, seam, count),
    }
}

/// How many threads have an event that is enabled.
pub(crate) fn enabled_count(machine: &Machine) -> u16
    ensures { AreAble machine.now result }
{
    let mut count = 0u16;
    'threads: for thread in 0..machine.shared().threads.len() as u16 {
        if may(machine, thread) {
            count += 1;
        }
    }
    count
}

/// The thread that has an event which is enabled, behind so many others that have one.
pub(crate) fn enabled_at(machine: &Machine, place: u16) -> Option<u16>
    ensures able { IfSome result (MayGo machine.now) }
    ensures at { IsAbleAt machine.now place result }
{
    let mut left = place;
    'threads: for thread in 0..machine.shared().threads.len() as u16 {
        if may(machine, thread) {
            if left == 0 {
                return Some(thread);
            }
            left -= 1;
        }
    }
    None
}
