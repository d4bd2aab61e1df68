//! The text of a schedule that grows as a run goes on, so that a run which is killed leaves what it did.
//!
//! It begins with `#growing` and with what the run is recorded with; behind that its entries are written, a part at a
//! time. Each part has those of the events since the one before. As long as a text grows, its last word may be cut off.
//!
//! # Proved
//!
//! - `growing_front` is the text of no events so far (`HasGrown`), and `RecordedEvents::text_behind` is what stands
//!   behind the text of the first so many events in that of all (`GrowsBy`): the entries of a part are joined.
//! - Every front of such a text, behind whatever byte it ends, spells a schedule of the first of its events, and with
//!   what they are recorded, once its entries begin (`DoFrontsSpell`). The whole text spells all of them
//!   (`DoTextsSpell`). So says `fronts_spell_events`, a theorem; `parse` of `schedule_text` reads what a text spells.
//!
//! # Wrong bodies
//!
//! - `growing_text-writes_the_last_entry_whole`: events that are written already are written once more; refused by the
//!   clause `events` of `last_entries`.
//! - `growing_text-drops_the_last_entry`: the last entry is missing; refused by the same.
//! - `schedule_text-keeps_the_last_word`: a last word without white space behind it is read; refused by the clause of
//!   `schedule_words`.

mod front;
mod parts;
mod spelling;

pub use front::growing_front;
pub use spelling::fronts_spell_events;
