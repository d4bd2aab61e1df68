//! What is true of texts whatever reads them.

ghost use Rattle.std.specs.Prelude.{◌≡◌, ℕ, List, Option};
ghost use Rattle.model.specs.declared.event.ScheduleEntry.{ScheduleEntry};
ghost use Rattle.schedule.specs.Files.{Recording};
ghost use Rattle.schedule.specs.schedule_text.Text.{SpellsSchedule};

/// A text spells at most one list of entries, and at most one recording beside it.
pub fn text_spells_one_schedule()
    ensures { (text : List ℕ) (p q : Option Recording) (es fs : List ScheduleEntry) → SpellsSchedule text p es
        → SpellsSchedule text q fs
        → (p ≡ q) × (es ≡ fs) }
{}
