//! The events that a schedule with places stands for.

ghost use Rattle.std.specs.Prelude.{◌≡◌, IfOk};
ghost use Rattle.std.specs.Arc.{arc_value};
ghost use Rattle.machine.specs.Machines.{IsProgramOf};
ghost use Rattle.place_texts.specs.Places.{deeds_of};
ghost use Rattle.place_runs.specs.Following.{HasRoomFor, with_stop};
ghost use Rattle.place_runs.specs.Followed.{AreEventsOf};

use crate::following::{Stop, follow};
use linked_code::LinkedProgram;
use model::Limits;
use place_texts::PlacedDeed;
use program_runs::worlds::World;
use schedule::Schedule;
use schedule::recorded_events::RecordedEvents;
use std::alloc::{AllocError, Global};
use std::sync::Arc;
use verifier::Verified;

/// The events that the words of a schedule with places stand for, and why there are no more.
#[derive(Drop)]
pub struct Followed {
    /// The last one is that of the stop, where an event stops it.
    pub schedule: Schedule,
    pub stop: Stop,
}

/// Adds the event that can't be done, if there is one.
fn with_last(mut events: RecordedEvents, stop: Stop) -> Result<RecordedEvents, AllocError>
    requires { HasRoomFor stop events.events }
    ensures { IfOk result (λ all. all.events ≡ with_stop events.events stop) }
{
    if let Stop::Event(event) = stop {
        events.reserve()?;
        events.append(event, 1);
    }
    Ok(events)
}

/// The events of a schedule with places, over class files that are accepted, under limits. A place gives up once so
/// many events are done. The only error is a want of memory.
pub fn follow_deeds(
    alloc: Global,
    verified: Arc<Verified>,
    program: Arc<LinkedProgram>,
    deeds: &[PlacedDeed],
    limits: Limits,
    budget: u32,
) -> Result<Followed, AllocError>
    requires { IsProgramOf (arc_value verified) (arc_value program) }
    ensures { IfOk result (AreEventsOf (arc_value verified) limits budget (deeds_of deeds.now)) }
{
    let mut world = World::open_linked(alloc, verified, program, limits, u32::MAX)?;
    let stop = follow(alloc, &mut world, deeds, budget)?;
    let events = with_last(world.into_events(), stop)?;
    Ok(Followed {
        schedule: events.into_schedule(),
        stop,
    })
}
