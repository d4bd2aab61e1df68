//! What is seen of a thread tells that its event was alone, and in no race. Each function here is a theorem, and does
//! nothing.

ghost use Rattle.alone_events.specs.Ahead.{AreMovesAloneSeen, AreReleasesAloneSeen};

use machine_state::state_events::stacks_are_lent;
use racing_threads::free_events::{
    calls_and_returns_are_free, events_that_leave_monitors_are_free,
};
use search_laws::alone::{calls_and_returns_are_alone, events_that_leave_monitors_are_alone};

/// An event that called or returned, by what is seen of its thread before and after, is alone behind the run that was
/// shown.
pub(crate) fn moves_are_alone()
    ensures holds { AreMovesAloneSeen }
{
    stacks_are_lent();
    calls_and_returns_are_alone();
    calls_and_returns_are_free();
}

/// So is one by which its thread left a monitor.
pub(crate) fn releases_are_alone()
    ensures holds { AreReleasesAloneSeen }
{
    stacks_are_lent();
    events_that_leave_monitors_are_alone();
    events_that_leave_monitors_are_free();
}
