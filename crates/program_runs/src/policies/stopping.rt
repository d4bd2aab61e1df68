//! What is told behind a turn, and what may stop a run there.

ghost use Rattle.program_runs.specs.worlds.Worlds.{StopsFor};

use crate::workers::Gate;
use crate::worlds::World;

/// Tells the gate how many events are done, shows them where the gate wants to see them, and stops the run where the
/// gate says that it is over.
pub(crate) fn behind_turn<G: Gate>(world: &mut World, gate: &G)
    ensures { StopsFor (G.may_stop gate.now) world.old world.new }
{
    world.tell(gate);
    if gate.is_over() {
        world.stop();
    }
}
