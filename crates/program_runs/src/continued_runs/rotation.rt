//! Threads that go on in turn.

ghost use Rattle.program_runs.specs.continued_runs.Turns.{TakesTurns};

use crate::workers::Gate;
use crate::worlds::World;

/// Does an event of the first thread in rotation that has an enabled one, which picks no waiter, and so on from the
/// thread behind it, until there is an end. A gate is told of each.
pub(crate) fn take_turns<G: Gate>(world: &mut World, gate: &G)
    ensures { TakesTurns world.old world.new }
{
    let mut from = 0u16;
    'turns: loop {
        world.tell(gate);
        if world.end().is_some() {
            return;
        }
        if let Some(thread) = world.shared_steps(from, 1) {
            from = thread.wrapping_add(1);
        }
    }
}
