//! Sweeps over a range of seeds, as options of `jvm run`.

ghost use Rattle.std.specs.Prelude.{◌≤◌};

use crate::options::Goal;

/// Seeds from one up to another, both included.
#[derive(Clone, Copy)]
pub struct SeedRange {
    pub first: u64,
    pub last: u64,
    pub ghost in_order: { first ≤ last },
}

/// By which rule one worker gives the threads turns, where it goes by a seed.
#[derive(Clone, Copy)]
pub enum SweepPolicy {
    /// Turns in rotation, of lengths that are drawn.
    Mixed,
    /// Events of threads that are drawn.
    Random,
}

/// A run for each of some seeds.
#[derive(Drop)]
pub struct SweepOptions {
    pub seeds: SeedRange,
    pub policy: SweepPolicy,
    /// Whether a run with a data race (JLS 17.4.5) is to be found. No outcome is then.
    pub for_race: bool,
    /// The outcome that is to be found, and `None` where all are asked for.
    pub goal: Option<Goal>,
}
