//! The words of a schedule with places, followed in a world.

ghost use Rattle.std.specs.Prelude.{◌≡◌, ℕ, [], None, IfOk};
ghost use Rattle.model.specs.Schedule.{EntryFits};
ghost use Rattle.place_texts.specs.Fitting.{Fits};
ghost use Rattle.place_texts.specs.Places.{Entry, PlaceOf, Until, deed_of, deeds_of};
ghost use Rattle.code_places.specs.Points.{all_points};
ghost use Rattle.place_runs.specs.Worlds.{DoesDeed, FollowsDeeds, stop_by};

use crate::going_on::{go_on, unless_memory};
use code_places::{Point, points_of};
use machine::Stopped;
use model::{Event, ScheduleEntry};
use place_texts::{Deed, PlacedDeed};
use program_runs::worlds::World;
use std::alloc::{AllocError, Global};

/// Why no more of a schedule with places was done.
#[derive(Clone, Copy)]
pub enum Stop {
    /// All of its words were.
    Whole,
    /// The next event, which is told, is not enabled, or a limit refuses it.
    Event(Event),
    /// The budget was used up before the next bytecode of a thread was at a place; or there were as many events as a
    /// schedule may have.
    UsedUp,
}

/// Why an event was not done, or its entry not whole.
fn stop_of(why: Stopped, event: Event) -> Stop
    ensures { result ≡ stop_by why event }
{
    match why {
        Stopped::Most => Stop::UsedUp,
        Stopped::NotEnabled | Stopped::Refused(_) => Stop::Event(event),
    }
}

/// Does the events of an entry. Returns why they weren't all done, where they weren't.
fn follow_entry(world: &mut World, entry: ScheduleEntry) -> Result<Option<Stop>, AllocError>
    requires on { world.old.end ≡ None }
    requires fits { EntryFits entry }
    ensures { (budget : ℕ) → IfOk result (λ stop. DoesDeed stop (Entry entry) budget world.old world.new) }
{
    // what is known of the world
    let _ = world.end();
    let (done, why) = world.repeat(entry.event, entry.repeat)?;
    if done == entry.repeat {
        return Ok(None);
    }
    let told = unless_memory(why)?;
    let stop = stop_of(told, entry.event);
    Ok(Some(stop))
}

/// Lets a thread go on until its next bytecode is at one of these points. Returns why it didn't come there, where it
/// didn't.
fn follow_place(
    world: &mut World,
    thread: u16,
    points: &[Point],
    budget: u32,
) -> Result<Option<Stop>, AllocError>
    requires { world.old.end ≡ None }
    ensures { (place : PlaceOf) → points.now ≡ all_points world.old.trees place
        → IfOk result (λ stop. DoesDeed stop (Until thread place) budget world.old world.new) }
{
    match go_on(world, thread, points, budget)? {
        Some(why) => {
            let stop = stop_of(why, Event { thread, pick: 0 });
            Ok(Some(stop))
        }
        None => Ok(None),
    }
}

/// Does what a word says. Returns why not all of it was done, where it wasn't.
fn follow_deed(
    alloc: Global,
    world: &mut World,
    deed: &Deed,
    budget: u32,
) -> Result<Option<Stop>, AllocError>
    requires on { world.old.end ≡ None }
    requires fits { Fits deed.now }
    ensures { IfOk result (λ stop. DoesDeed stop (deed_of deed.now) budget world.old world.new) }
{
    match deed {
        Deed::Entry(entry) => follow_entry(world, *entry),
        Deed::Until(thread, place) => {
            let points = points_of(alloc, world.verified().linked(), place)?;
            follow_place(world, *thread, points.as_slice(), budget)
        }
    }
}

/// Does what words say, one after the other, as far as that goes. Returns why no more was done. The only error is a
/// want of memory.
pub(crate) fn follow(
    alloc: Global,
    world: &mut World,
    deeds: &[PlacedDeed],
    budget: u32,
) -> Result<Stop, AllocError>
    requires on { world.old.end ≡ None }
    requires none { world.old.events ≡ [] }
    ensures { IfOk result (λ stop. FollowsDeeds stop (deeds_of deeds.now) budget world.old world.new) }
{
    'deeds: for placed in deeds {
        if let Some(stop) = follow_deed(alloc, world, &placed.deed, budget)? {
            return Ok(stop);
        }
    }
    Ok(Stop::Whole)
}
