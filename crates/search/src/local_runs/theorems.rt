//! What is known of local instructions behind a run. Each function here is a theorem, and does nothing.

ghost use Rattle.search.specs.local_runs.Local.{AreInstructionsLocal, IsNoneLocal};

use machine_state::linked_frames::frames_stand;
use machine_state::state_events::stacks_are_lent;
use machine_state::thread_bursts::steps_are_events;
use run_laws::interleavings::local_events_are_their_own;
use run_laws::soundness::a_step_keeps_types;
use run_laws::word_runs::a_step_is_carried;

/// The local instructions that the frame on top of a thread can do are its next events, and each is local.
pub(crate) fn instructions_are_local()
    ensures holds { AreInstructionsLocal }
{
    frames_stand();
    stacks_are_lent();
    steps_are_events();
    a_step_is_carried();
    a_step_keeps_types();
    local_events_are_their_own();
}

/// No instructions are no events, each of which is local.
pub(crate) fn none_is_local()
    ensures holds { IsNoneLocal }
{}
