//! Runs that are stopped.

ghost use Rattle.program_runs.specs.worlds.Worlds.{Stops};

use crate::worlds::turns::first_enabled;
use crate::worlds::world::World;
use model::End;
use run_laws::word_reports::reports_of_words;

impl World {
    /// Ends a run before its next event, as if the budget were used up. Where there is an end, or no thread has an event
    /// that is enabled, nothing changes.
    pub(crate) fn stop(&mut self)
        ensures { Stops self.old.end self.old self.new }
    {
        reports_of_words();
        if self.end.is_some() {
            return;
        }
        let Some(_thread) = first_enabled(&self.machine, 0) else {
            return;
        };
        self.budget = self.recorded.len();
        self.end = Some(End::Budget);
    }
}
