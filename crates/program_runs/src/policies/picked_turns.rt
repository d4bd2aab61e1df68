//! A turn of a thread, or an event that wakes a waiter.

ghost use Rattle.std.specs.Prelude.{◌≡◌, ◌≤◌, None, IfOk, OnOk};
ghost use Rattle.model.specs.LimitStands.{bounds_of};
ghost use Rattle.program_runs.specs.policies.PolicyTurns.{DoesTurn, IsAble, PicksTurn};
ghost use Rattle.program_runs.specs.policies.Runs.{with_picked};

use crate::worlds::World;
use model::Event;
use std::alloc::AllocError;

/// Does the event of a thread that picks a waiter, unless that is the first one, if it can be done. Tells whether it
/// was done. The only error is a want of memory.
fn is_picked(world: &mut World, thread: u16, pick: u16) -> Result<bool, AllocError>
    requires { world.old.end ≡ None }
    ensures { IfOk result (λ picked. PicksTurn thread pick picked world.old world.new) }
{
    if pick == 0 {
        return Ok(false);
    }
    world.event(Event { thread, pick })
}

/// Where a waiter is picked that isn't the first one, and the event of the thread can wake it, that event is all of the
/// turn. Else it is a turn of up to so many events. The only error is a want of memory.
pub(crate) fn give_turn(
    world: &mut World,
    thread: u16,
    pick: u16,
    most: u32,
) -> Result<(), AllocError>
    requires on { world.old.end ≡ None }
    requires able { IsAble world.old thread }
    requires some { 1 ≤ most }
    ensures { OnOk result (DoesTurn (with_picked world.old.trees (bounds_of world.old.machine.limits) world.old.budget
        pick most thread world.old.events) world.old world.new) }
{
    // what is known of the world
    let _ = world.end();
    if is_picked(world, thread, pick)? {
        return Ok(());
    }
    world.turn(thread, most);
    Ok(())
}
