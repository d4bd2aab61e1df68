//! Schedules of seeds, computed by their definition: the function here is a theorem, and does nothing.

ghost use Rattle.program_runs.specs.policies.Examples.{SeedExamples};

/// The words of two seeds, and the events of runs by policies over a program of two threads.
pub fn schedules_of_seeds()
    ensures holds { SeedExamples }
{}
