//! What is true of texts that grow.

ghost use Rattle.schedule.specs.growing_text.Growing.{DoFrontsSpell, DoTextsSpell};

/// Every front of a text that grows spells a schedule of the first of its events, and the whole text of all of them.
pub fn fronts_spell_events()
    ensures fronts { DoFrontsSpell }
    ensures whole { DoTextsSpell }
{}
