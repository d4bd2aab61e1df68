//! A list of events that grows.

ghost use Rattle.std.specs.Prelude.{◌≡◌, ◌+◌, ◌<◌, ◌^◌, ◌++◌, [], length, replicate, OnOk};
ghost use Rattle.model.specs.Schedule.{events_of};
ghost use Rattle.schedule.specs.Joined.{AreJoined};

use crate::Schedule;
use crate::joining::append_events;
use model::{Event, ScheduleEntry};
use std::alloc::{AllocError, Global};
use std::marker::Model;

/// A list of at most 4,294,967,295 events that grows at its end. It is kept as entries for runs of equal events.
#[derive(Drop)]
pub struct RecordedEvents {
    pub(crate) entries: Vec<ScheduleEntry>,
    pub(crate) total: u32,
}

impl Model for RecordedEvents {
    ghost use Rattle.std.specs.Prelude.{◌-◌, vec_len, vec_capacity};
    ghost use Rattle.model.specs.Schedule.{events_of};
    ghost use Rattle.schedule.specs.recorded_events.Recorded.{RecordedOf, IsRecord};

    ghost Value = { RecordedOf };

    ghost view = { λ r. record { events = events_of r.entries.items; room = vec_capacity r.entries - vec_len r.entries } };

    ghost invariant = { λ r. IsRecord r.entries.items r.total };
}

impl RecordedEvents {
    /// No events.
    pub fn new(alloc: Global) -> RecordedEvents
        ensures { result.events ≡ [] }
    {
        RecordedEvents {
            entries: Vec::new(alloc),
            total: 0,
        }
    }

    /// How many events it has.
    pub fn len(&self) -> u32
        ensures { result ≡ length self.now.events }
    {
        self.total
    }

    /// Makes room for one more run of equal events.
    ///
    /// # Errors
    ///
    /// A want of memory. The events stay as they are in any case.
    pub fn reserve(&mut self) -> Result<(), AllocError>
        ensures room { OnOk result (0 < self.new.room) }
        ensures same { self.new.events ≡ self.old.events }
    {
        self.entries.reserve(1)
    }

    /// Adds so many equal events at the end. More than one picks nothing.
    #[tactic(auto, using(crate::proofs::recorded_events::Runs::counted))]
    pub fn append(&mut self, event: Event, count: u32)
        requires room { 0 < self.old.room }
        requires most { length self.old.events + count < 2 ^ 32 }
        requires alone { 1 < count → event.pick ≡ 0 }
        ensures { self.new.events ≡ self.old.events ++ replicate count event }
    {
        if count == 0 {
            return;
        }
        self.total += count;
        append_events(&mut self.entries, event, count);
    }

    /// The schedule of its events, in as few entries as they can have.
    pub fn into_schedule(self) -> Schedule
        ensures events { events_of result ≡ self.events }
        ensures joined { AreJoined result }
    {
        Schedule::of_entries(self.entries)
    }
}
