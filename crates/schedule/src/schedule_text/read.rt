//! Reading the text of a schedule.

ghost use Rattle.std.specs.Prelude.{◌≡◌, List, Option, IfOk};
ghost use Rattle.model.specs.declared.event.ScheduleEntry.{ScheduleEntry};
ghost use Rattle.schedule.specs.Files.{Recording as Recorded};
ghost use Rattle.schedule.specs.schedule_text.Outcomes.{Answers};
ghost use Rattle.schedule.specs.schedule_text.Text.{SpellsSchedule};

use crate::schedule_text::entries::entries;
use crate::schedule_text::fault::TextFault;
use crate::schedule_text::recordings::recorded;
use crate::schedule_text::words::schedule_words;
use crate::{Recording, Schedule};
use std::alloc::Global;

/// The schedule that a text spells, and with what it was recorded, where the text tells that. Where its first word is
/// `#growing`, a last word with no white space behind it is left out.
///
/// # Errors
///
/// The first fault in the order of the words, with its line: `Limits`, `Lengths`, `Checksums`, `Entry` and
/// `TooMany`; and `OutOfMemory`.
pub fn parse(alloc: Global, text: &[u8]) -> Result<(Schedule, Option<Recording>), TextFault>
    // What is read is spelled so.
    ensures found { IfOk result (λ read. SpellsSchedule text.now read.1 read.0) }
    // What is spelled so is read, unless memory runs out.
    ensures only { (recorded : Option Recorded) (entries : List ScheduleEntry)
        → SpellsSchedule text.now recorded entries
        → Answers result recorded entries }
{
    let mut words = schedule_words(text);
    let recorded = recorded(alloc, &mut words)?;
    let entries = entries(alloc, &mut words)?;
    Ok((Schedule::of_entries(entries), recorded))
}
