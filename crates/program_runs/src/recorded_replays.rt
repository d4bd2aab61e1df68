//! What a replay of a recorded run comes to. The function here is a theorem, and does nothing.
//!
//! # Proved
//!
//! - `records_replay` (`DoRecordsReplay`): a replay of the events that a run has recorded, over the same accepted files
//!   and within the same limits, prints the same text, and its threads end alike, after as many events; unless it
//!   stops for want of memory. It ends with `Quiet` where the run did, and else with `Schedule`.

ghost use Rattle.program_runs.specs.recorded_replays.Same.{DoRecordsReplay};

use run_laws::searches::picks_are_in_order;

/// Whatever replays the events of a recorded run within its limits shows what the run showed, memory aside.
pub fn records_replay()
    ensures holds { DoRecordsReplay }
{
    picks_are_in_order();
}
