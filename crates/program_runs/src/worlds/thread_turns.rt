//! Turns that are given to a thread.

ghost use Rattle.std.specs.Prelude.{◌≡◌, ◌≤◌, None, IfErr, IfOk};
ghost use Rattle.model.specs.LimitStands.{bounds_of};
ghost use Rattle.program_runs.specs.continued_runs.Following.{WantsMemory};
ghost use Rattle.program_runs.specs.policies.PolicyTurns.{DoesEvent, DoesTurn, IsAble, turn_end as end_of_turn};
ghost use Rattle.program_runs.specs.policies.Runs.{with_turn};
ghost use Rattle.program_runs.specs.worlds.Turns.{IsFound};

use crate::worlds::world::World;
use machine::Stopped;
use machine_state::EventRefusal;
use model::{End, Event, RunCause};
use run_laws::word_reports::reports_of_words;
use std::alloc::AllocError;

/// Why no more events were done, where it is no want of memory.
pub(crate) fn unless_memory(why: Stopped) -> Result<Stopped, AllocError>
    ensures same { IfOk result (λ told. (told ≡ why) × (WantsMemory why → ⊥)) }
    ensures memory { IfErr result (λ _. WantsMemory why) }
{
    match why {
        Stopped::Refused(EventRefusal::Memory) => Err(AllocError),
        Stopped::Most | Stopped::NotEnabled | Stopped::Refused(_) => Ok(why),
    }
}

/// The end behind a turn that did so many of the events that there are: there is one where memory was wanted, or a
/// limit refused the first event.
fn turn_end(why: Stopped, count: u32, done: u32) -> Option<End>
    ensures { result ≡ end_of_turn why count done }
{
    match why {
        Stopped::Refused(EventRefusal::Memory) => {
            Some(End::Refused(u64::from(count), RunCause::Memory))
        }
        Stopped::Refused(refusal) if done == 0 => {
            Some(End::Refused(u64::from(count), refusal.cause()))
        }
        Stopped::Refused(_) | Stopped::Most | Stopped::NotEnabled => None,
    }
}

impl World {
    /// Ends a run of which no thread has an event that is enabled.
    pub(crate) fn end_quietly(&mut self)
        requires on { self.old.end ≡ None }
        requires none { IsFound self.old.machine 0 None }
        ensures { DoesTurn self.old.events self.old self.new }
    {
        reports_of_words();
        self.end = Some(End::Quiet);
    }

    /// Does an event, if it is enabled, no limit stands at it, and the budget leaves one. Tells whether it was done.
    /// The only error is a want of memory.
    pub(crate) fn event(&mut self, event: Event) -> Result<bool, AllocError>
        requires { self.old.end ≡ None }
        ensures { IfOk result (λ done. DoesEvent event done self.old self.new) }
    {
        // what is known of the world
        let _ = self.end();
        let (done, why) = self.repeat(event, 1)?;
        unless_memory(why)?;
        Ok(done > 0)
    }

    /// A turn of a thread that has an event which is enabled: up to so many events of it within the budget, none of
    /// which picks a waiter. Where none is done, or memory is wanted, an end is set.
    pub(crate) fn turn(&mut self, thread: u16, most: u32)
        requires on { self.old.end ≡ None }
        requires able { IsAble self.old thread }
        requires some { 1 ≤ most }
        ensures { DoesTurn (with_turn self.old.trees (bounds_of self.old.machine.limits) self.old.budget most thread
            self.old.events) self.old self.new }
    {
        let count = self.recorded.len();
        if count == self.budget {
            self.end = Some(End::Budget);
            return;
        }
        let Ok((done, why)) = self.repeat(Event { thread, pick: 0 }, most) else {
            self.end = Some(End::Refused(u64::from(count), RunCause::Memory));
            return;
        };
        self.end = turn_end(why, self.recorded.len(), done);
    }
}
