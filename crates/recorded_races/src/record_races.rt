//! The data races of a run that was recorded.
//!
//! # Proved
//!
//! - `record_races`: the races that are told are those of all events of the record (`AreRacesTold`): each is one of the
//!   run, by its variable and the places of its accesses, and each access that races with an earlier one has one told.
//!   A line spells each of them, and it is told whether there is one.
//!
//! # Not proved
//!
//! - How long that takes: the events of the record are done once more.
//!
//! # Wrong bodies
//!
//! - `record_races-part-is-the-whole`: the races of a front of the events are told where memory is wanted for the next
//!   one; refused by `record_races`.

ghost use Rattle.std.specs.Prelude.{◌≡◌, IfOk, false, true};
ghost use Rattle.std.specs.Arc.{arc_value};
ghost use Rattle.model.specs.Schedule.{events_of};
ghost use Rattle.program_runs.specs.recorded_replays.Same.{WantsMemory};
ghost use Rattle.recorded_races.specs.record_races.Told.{AreRacesTold, WasRecorded};

use model::{End, RunCause};
use program_runs::recorded_replays::records_replay;
use program_runs::workers::Recorded;
use race_runs::raced_runs::races;
use std::alloc::{AllocError, Global};

/// The races of a run that was recorded.
#[derive(Drop)]
pub struct RecordRaces {
    /// A line for each race, in the order of their second events.
    pub lines: Vec<u8>,
    /// Whether there is one.
    pub has_race: bool,
}

/// Whether a run ended for want of memory.
fn wants_memory(end: End) -> bool
    ensures wants { result ≡ true → WantsMemory end }
    ensures goes_on { result ≡ false → WantsMemory end → ⊥ }
{
    match end {
        End::Refused(_, RunCause::Memory) => true,
        _ => false,
    }
}

/// Tells the data races of all events of a run that was recorded (JLS 17.4.5). They are done once more. The only error
/// is a want of memory.
pub fn record_races(alloc: Global, recorded: &Recorded) -> Result<RecordRaces, AllocError>
    requires { WasRecorded recorded.now }
    ensures { IfOk result (λ told. AreRacesTold (arc_value recorded.now.verified) recorded.now.limits.frames
        (events_of recorded.now.schedule) told.lines.items told.has_race) }
{
    records_replay();
    let run = races(
        alloc,
        &recorded.verified,
        &recorded.schedule,
        recorded.limits,
    )?;
    if wants_memory(run.end) {
        return Err(AllocError);
    }
    Ok(RecordRaces {
        lines: run.lines,
        has_race: run.has_race,
    })
}
