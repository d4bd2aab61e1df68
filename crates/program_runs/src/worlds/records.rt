//! What a world has done, once it has ended.

ghost use Rattle.std.specs.Prelude.{◌≡◌, Some, IfOk};
ghost use Rattle.program_runs.specs.worlds.Records.{IsRecordOf, Keeps};
ghost use Rattle.program_runs.specs.worlds.Finishing.{HasTakenTurns, IsReportOn, IsRecordAt};

use crate::worlds::world::World;
use machine::machine_reports::report_of;
use model::{End, Limits, Report};
use run_laws::soundness::no_event_is_wrong;
use run_laws::word_reports::reports_of_words;
use schedule::Schedule;
use std::alloc::{AllocError, Global};
use std::sync::Arc;
use verifier::Verified;

/// A run that has ended: its class files and its limits, the events that were done, in as few entries as they can
/// have, the report of where they led, and why there were no more.
#[derive(Drop)]
pub struct Recorded {
    pub verified: Arc<Verified>,
    pub limits: Limits,
    pub schedule: Schedule,
    pub report: Report,
    pub end: End,
}

impl World {
    /// Goes on until there is an end. Each turn does an event, of which the budget leaves fewer and fewer, or sets an
    /// end.
    fn finish(&mut self) -> End
        ensures ended { self.new.end ≡ Some result }
        ensures turns { HasTakenTurns self.old self.new }
    {
        'turns: loop {
            if let Some(end) = self.end() {
                return end;
            }
            self.shared_steps(0, u32::MAX);
        }
    }

    /// The report of where its events have led (JVMS 2.5.2, 2.10, 5.5; JLS 17). The only error is a want of memory.
    fn report(&self, alloc: Global) -> Result<Report, AllocError>
        ensures { IfOk result (IsReportOn self.now) }
    {
        report_of(
            alloc,
            self.verified.linked().set(),
            self.machine.program(),
            self.machine.shared(),
            self.machine.limits().frames as usize,
            u64::from(self.recorded.len()),
        )
    }

    /// What it has done, where it has ended so. The only error is a want of memory.
    fn told(self, alloc: Global, end: End) -> Result<Recorded, AllocError>
        requires { self.end ≡ Some end }
        ensures { IfOk result (IsRecordAt self end) }
    {
        reports_of_words();
        no_event_is_wrong();
        let report = self.report(alloc)?;
        Ok(Recorded {
            limits: self.machine.limits(),
            verified: self.verified,
            schedule: self.recorded.into_schedule(),
            report,
            end,
        })
    }

    /// Goes on until there is an end, if there is none, and tells what was done. The only error is a want of memory.
    pub fn into_recorded(mut self, alloc: Global) -> Result<Recorded, AllocError>
        ensures of { IfOk result (IsRecordOf self.trees self.machine.limits self.budget) }
        ensures keeps { IfOk result (Keeps self) }
    {
        let end = self.finish();
        self.told(alloc, end)
    }
}
