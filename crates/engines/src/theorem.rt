//! What the page of the theorem says of records. The function here is a theorem, and does nothing.

ghost use Rattle.engines.specs.Theorem.{DoRecordsReplay};

use program_runs::recorded_replays;

/// Whatever replays the events of a recorded run within its limits shows what the run showed, memory aside.
pub fn records_replay()
    ensures holds { DoRecordsReplay }
{
    recorded_replays::records_replay();
}
