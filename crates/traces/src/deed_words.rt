//! What an event did, in a word, and which monitor it was about.

use crate::names::ProgramNames;
use crate::traced_events::{Before, Deed, Entries, Told};
use machine_state::Shared;
use std::alloc::AllocError;

/// What threads do to each other, in a word.
fn thread_word(deed: Deed) -> &'static str {
    match deed {
        Deed::Waits { .. } => "waits",
        Deed::Notifies { .. } | Deed::NotifiesAll => "notifies",
        Deed::Starts { .. } => "starts",
        Deed::Interrupts { .. } => "interrupts",
        Deed::Joins { .. } => "joins",
        Deed::Yields => "yields",
        Deed::EntersAgain { .. } => "wakes",
        _ => "",
    }
}

/// Calls, exceptions and classes, in a word.
fn method_word(deed: Deed) -> &'static str {
    match deed {
        Deed::Calls { .. } => "calls",
        Deed::Returns { .. } => "returns",
        Deed::Runs { .. } => "runs",
        Deed::Catches { .. } => "catches",
        Deed::Leaves { .. } => "leaves",
        Deed::BeginsInitialisation { .. } => "begins",
        Deed::NeedsNoInitialiser { .. } => "finds",
        Deed::EndsInitialisation { .. } => "initialises",
        Deed::FailsInitialisation { .. } => "fails",
        _ => thread_word(deed),
    }
}

/// What was done, in a word; none where there is no more to tell than the instruction says.
fn deed_word(deed: Deed) -> &'static str {
    match deed {
        Deed::Pushes { .. } => "pushes",
        Deed::Stores { .. } => "stores",
        Deed::Goes { .. } => "goes",
        Deed::ReadsField { .. } | Deed::ReadsElement { .. } => "reads",
        Deed::WritesField { .. } | Deed::WritesElement { .. } => "writes",
        Deed::Makes { .. } => "makes",
        Deed::Enters(_) => "enters",
        Deed::Exits(_) => "exits",
        Deed::Prints { .. } | Deed::PrintsText => "prints",
        _ => method_word(deed),
    }
}

/// What an event did, in a word: that its thread ended, or that it threw an exception; or else the deed.
pub(crate) fn word_of(told: Told) -> &'static str {
    match (told.ends, told.throws, told.deed) {
        (Some(_), _, _) => "ends",
        (None, Some(_), Deed::Nothing) => "throws",
        _ => deed_word(told.deed),
    }
}

/// The monitor that an event entered or left, and how often its thread has entered it since.
pub(crate) fn monitor_of(deed: Deed) -> Option<Entries> {
    match deed {
        Deed::Enters(entries) | Deed::Exits(entries) | Deed::EntersAgain { entries, .. } => {
            Some(entries)
        }
        Deed::Calls { entered, .. } => entered,
        Deed::Returns { exited, .. } | Deed::Leaves { exited, .. } => exited,
        Deed::Waits { object } => Some(Entries { object, count: 0 }),
        _ => None,
    }
}

/// How many units were printed so far, where the event printed some.
pub(crate) fn printed_since(before: &Before, shared: &Shared) -> Option<usize> {
    let count = shared.printed.len();
    if before.printed < count {
        Some(count)
    } else {
        None
    }
}

/// The Thread object of the thread that an event started, and the thread's number.
pub(crate) fn started_by(deed: Deed, shared: &Shared) -> Option<(u32, u16)> {
    match deed {
        Deed::Starts { object } => match shared.threads.number(object) {
            Some(thread) => Some((object, thread)),
            None => None,
        },
        _ => None,
    }
}

impl ProgramNames<'_> {
    /// Writes an object, if there is one.
    pub(crate) fn push_object_if(
        &self,
        text: &mut Vec<u8>,
        shared: &Shared,
        object: Option<u32>,
    ) -> Result<(), AllocError> {
        match object {
            Some(object) => self.push_object(text, &shared.heap, object),
            None => Ok(()),
        }
    }
}
