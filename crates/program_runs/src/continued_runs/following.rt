//! A schedule whose events are done in a world.

ghost use Rattle.std.specs.Prelude.{◌≡◌, None, IfOk};
ghost use Rattle.model.specs.Schedule.{events_of};
ghost use Rattle.program_runs.specs.continued_runs.Following.{Follows};

use crate::workers::Gate;
use crate::worlds::{World, unless_memory};
use machine::Stopped;
use schedule::Schedule;
use std::alloc::AllocError;

/// Does the events of a schedule, as far as they go and the budget allows, and tells a gate of them behind each entry.
/// Returns why no more were done: `Most`
/// where all were, or the budget is used up. The only error is a want of memory, to do an event or to record it.
pub(crate) fn follow<G: Gate>(
    world: &mut World,
    schedule: &Schedule,
    gate: &G,
) -> Result<Stopped, AllocError>
    requires { world.old.end ≡ None }
    ensures { IfOk result (λ why. Follows (events_of schedule.now) why world.old world.new) }
{
    'entries: for entry in schedule.entries() {
        let (done, why) = world.repeat(entry.event, entry.repeat)?;
        world.tell(gate);
        if done < entry.repeat {
            return unless_memory(why);
        }
    }
    Ok(Stopped::Most)
}
