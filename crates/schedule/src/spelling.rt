//! What is true of schedule files whatever reads them.

ghost use Rattle.std.specs.Prelude.{◌≡◌, ℕ, List, Option};
ghost use Rattle.model.specs.declared.event.Event.{Event};
ghost use Rattle.schedule.specs.FileExamples.{ScheduleFiles};
ghost use Rattle.schedule.specs.Files.{Recording, ScheduleFile};

/// Bytes spell at most one list of events, and at most one recording beside it.
pub fn bytes_spell_one_list()
    ensures { (bytes : List ℕ) (p q : Option Recording) (es fs : List Event) → ScheduleFile bytes p es
        → ScheduleFile bytes q fs
        → (p ≡ q) × (es ≡ fs) }
{}

/// Eight events as a schedule file of each version, and bytes that are no schedule.
pub fn schedule_files()
    ensures holds { ScheduleFiles }
{}
