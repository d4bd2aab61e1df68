//! A thread that goes on until its next bytecode is at a point.

ghost use Rattle.std.specs.Prelude.{◌≡◌, None, IfErr, IfOk};
ghost use Rattle.program_runs.specs.continued_runs.Following.{WantsMemory};
ghost use Rattle.place_texts.specs.Places.{PlaceOf};
ghost use Rattle.code_places.specs.Points.{all_points};
ghost use Rattle.place_runs.specs.Worlds.{GoesOn};

use crate::standing::stands_at;
use code_places::Point;
use machine::Stopped;
use machine_state::EventRefusal;
use model::Event;
use program_runs::worlds::World;
use std::alloc::AllocError;

/// Why no more events were done, where it is no want of memory.
pub(crate) fn unless_memory(why: Stopped) -> Result<Stopped, AllocError>
    ensures same { IfOk result (λ told. (told ≡ why) × (WantsMemory why → ⊥)) }
{
    match why {
        Stopped::Refused(EventRefusal::Memory) => Err(AllocError),
        Stopped::Most | Stopped::NotEnabled | Stopped::Refused(_) => Ok(why),
    }
}

/// Does events of a thread, at least one, which pick nothing, until its next bytecode is at one of these points.
/// Returns why that wasn't reached, where it wasn't: `Most` where the budget is used up, or all that the world has. The
/// only error is a want of memory.
pub(crate) fn go_on(
    world: &mut World,
    thread: u16,
    points: &[Point],
    budget: u32,
) -> Result<Option<Stopped>, AllocError>
    requires { world.old.end ≡ None }
    ensures { (place : PlaceOf) → points.now ≡ all_points world.old.trees place
        → IfOk result (λ why. GoesOn why thread place budget world.old world.new) }
{
    'events: loop {
        // what is known of the world
        let _ = world.end();
        let count = world.count();
        if budget <= count {
            return Ok(Some(Stopped::Most));
        }
        let (done, why) = world.repeat(Event { thread, pick: 0 }, 1)?;
        if done == 0 {
            let told = unless_memory(why)?;
            return Ok(Some(told));
        }
        let is_there = stands_at(world.machine(), thread, points);
        if is_there {
            return Ok(None);
        }
    }
}
