//! `rotation`: turns in the order of the threads' numbers.

ghost use Rattle.std.specs.Prelude.{◌≡◌, ◌≤◌, [], None};
ghost use Rattle.model.specs.LimitStands.{bounds_of};
ghost use Rattle.program_runs.specs.declared.policies.policy.Policy.TheVariants.{Rotation as rotation};
ghost use Rattle.program_runs.specs.policies.PolicyTurns.{DoesTurn, HasRunThrough};
ghost use Rattle.program_runs.specs.policies.Runs.{events_by, rotation_turn};
ghost use Rattle.program_runs.specs.worlds.Worlds.{IsOfLess};

use crate::policies::stopping::behind_turn;
use crate::policies::turn_order::{Direction, next_thread};
use crate::workers::Gate;
use crate::worlds::World;
use run_laws::word_reports::reports_of_words;

/// A turn, or the end. Answers the thread of the last turn.
fn take_turn(world: &mut World, last: Option<u16>, quantum: u32) -> Option<u16>
    requires on { world.old.end ≡ None }
    requires some { 1 ≤ quantum }
    ensures does { DoesTurn (rotation_turn world.old.trees (bounds_of world.old.machine.limits) world.old.budget
        quantum last world.old.events).events world.old world.new }
    ensures kept { result ≡ (rotation_turn world.old.trees (bounds_of world.old.machine.limits) world.old.budget
        quantum last world.old.events).kept }
{
    reports_of_words();
    // what is known of the world
    let _ = world.end();
    let Some(thread) = next_thread(world.machine(), last, Direction::Upwards) else {
        world.end_quietly();
        return last;
    };
    world.turn(thread, quantum);
    Some(thread)
}

/// Does turns of up to so many events until there is an end: the next one is that of the first thread behind the one
/// of the last, in rotation, that has an event which is enabled. The gate is told how many events are done, and may
/// stop the run behind a turn.
pub(crate) fn run_rotation<G: Gate>(world: &mut World, quantum: u32, gate: &G)
    requires some { 1 ≤ quantum }
    requires on { world.old.end ≡ None }
    requires none { world.old.events ≡ [] }
    ensures same { IsOfLess (G.may_stop gate.now) world.old world.new }
    ensures through { HasRunThrough (G.may_stop gate.now) (events_by (rotation quantum) world.old.trees
        (bounds_of world.old.machine.limits) world.old.budget) world.new }
{
    let mut last = None;
    'turns: for _ in 0..=world.budget() {
        if world.end().is_some() {
            return;
        }
        last = take_turn(world, last, quantum);
        behind_turn(world, gate);
    }
    let _ = world.end();
}
