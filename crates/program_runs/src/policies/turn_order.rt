//! Whose turn is next.

ghost use Rattle.program_runs.specs.policies.Keeping.{IsFoundBehind, is_down};

use crate::worlds::{first_enabled, first_enabled_below};
use machine::Machine;

/// Which way a rotation goes, by the threads' numbers.
#[derive(Clone, Copy)]
pub(crate) enum Direction {
    Upwards,
    Downwards,
}

/// The thread that has the next turn: the first one behind that of the last, in rotation, that has an event which is
/// enabled. The first turn is for the threads from 0 on.
pub(crate) fn next_thread(machine: &Machine, last: Option<u16>, direction: Direction) -> Option<u16>
    ensures { IsFoundBehind machine.now (is_down direction) last result }
{
    match (last, direction) {
        (None, _) => first_enabled(machine, 0),
        (Some(last), Direction::Upwards) => first_enabled(machine, last.wrapping_add(1)),
        (Some(last), Direction::Downwards) => first_enabled_below(machine, last),
    }
}
