//! A turn of a thread.

ghost use Rattle.std.specs.Prelude.{◌≡◌, ◌≤◌, ◌<◌, IfOk, IfErr};
ghost use Rattle.program_runs.specs.worlds.Worlds.{RepeatsWithin, TakesTurn, stopped_end};

use crate::worlds::turns::first_enabled;
use crate::worlds::world::World;
use machine::Stopped;
use model::{End, Event, RunCause};
use run_laws::word_reports::reports_of_words;
use std::alloc::AllocError;

impl World {
    /// Does an event up to so many times, within the budget, and never where an end is set. Returns how often it was
    /// done, and why no more. The only error is a want of memory to record it, and then nothing has changed.
    pub fn repeat(&mut self, event: Event, most: u32) -> Result<(u32, Stopped), AllocError>
        requires { 1 < most → event.pick ≡ 0 }
        ensures done { IfOk result (λ r. RepeatsWithin event most self.old.end r self.old self.new) }
        ensures still { IfErr result (λ _. self.new ≡ self.old) }
    {
        if self.end.is_some() {
            return Ok((0, Stopped::Most));
        }
        self.recorded.reserve()?;
        let left = self.budget - self.recorded.len();
        let (done, why) = self.machine.repeat(event, most.min(left));
        self.recorded.append(event, done);
        Ok((done, why))
    }

    /// Does up to so many events of the first thread that has one which is enabled, in rotation from a number up,
    /// within the budget; none of them picks a waiter. Returns the thread, or none where an end is set: if it wasn't
    /// before, it is now.
    pub fn shared_steps(&mut self, from: u16, most: u32) -> Option<u16>
        requires { 1 ≤ most }
        ensures { TakesTurn from most self.old.end result self.old self.new }
    {
        reports_of_words();
        if self.end.is_some() {
            return None;
        }
        let Some(thread) = first_enabled(&self.machine, from) else {
            self.end = Some(End::Quiet);
            return None;
        };
        let count = self.recorded.len();
        if count == self.budget {
            self.end = Some(End::Budget);
            return None;
        }
        let Ok((done, why)) = self.repeat(Event { thread, pick: 0 }, most) else {
            self.end = Some(End::Refused(u64::from(count), RunCause::Memory));
            return None;
        };
        if done > 0 {
            return Some(thread);
        }
        self.end = stopped(why, count);
        None
    }
}

/// The end where an event was to be done after so many, and was not.
fn stopped(why: Stopped, count: u32) -> Option<End>
    ensures { result ≡ stopped_end why count }
{
    match why {
        Stopped::Refused(refusal) => Some(End::Refused(u64::from(count), refusal.cause())),
        Stopped::Most | Stopped::NotEnabled => None,
    }
}
