//! What a search is to find.

ghost use Rattle.std.specs.Prelude.{◌≡◌, ◌↔◌, IfOk, IsTrue};
ghost use Rattle.std.specs.List.{list_any};
ghost use Rattle.model.specs.Report.{end_state_of};
ghost use Rattle.model.specs.Texts.{printed_lines};
ghost use Rattle.search.specs.run_outcomes.Outcomes.{told_by, IsWanted};
ghost use Rattle.search.specs.run_outcomes.Outcomes as spec;

use crate::run_outcomes::outcomes::Outcome;
use model::EndState;
use schedule::report::push_printed;
use std::alloc::{AllocError, Global};

/// The outcome that a search is to find.
#[derive(Drop)]
pub enum Wanted {
    /// None: all outcomes are asked for.
    Nothing,
    /// A thread waits for ever: for a monitor, in a wait set, for another thread to end or to initialise a class.
    Stuck,
    /// A thread ended with an exception that nothing caught.
    Uncaught,
    /// The run printed this text, by its UTF-16 units.
    Printed(Vec<u16>),
    /// A report shows another text than this of what was printed: there the last line has a line feed.
    PrintedOther(Vec<u8>),
}

fn is_stuck(thread: &EndState) -> bool
    ensures { result ≡ spec.is_stuck (end_state_of thread.now) }
{
    matches!(
        thread,
        EndState::Blocked | EndState::Waiting | EndState::Joining | EndState::Initialising
    )
}

fn has_thrown(thread: &EndState) -> bool
    ensures { result ≡ spec.has_thrown (end_state_of thread.now) }
{
    matches!(thread, EndState::Threw(_))
}

/// Whether a thread waits for ever.
pub(crate) fn any_is_stuck(threads: &[EndState]) -> bool
    ensures { result ≡ list_any (λ thread. spec.is_stuck (end_state_of thread)) threads.now }
{
    threads.iter().any(is_stuck)
}

fn any_has_thrown(threads: &[EndState]) -> bool
    ensures { result ≡ list_any (λ thread. spec.has_thrown (end_state_of thread)) threads.now }
{
    threads.iter().any(has_thrown)
}

fn are_same(one: &[u8], other: &[u8]) -> bool
    ensures { IsTrue result ↔ (one.now ≡ other.now) }
{
    one == other
}

fn are_same_units(one: &[u16], other: &[u16]) -> bool
    ensures { IsTrue result ↔ (one.now ≡ other.now) }
{
    one == other
}

/// Whether a text is what a report shows of what was printed. The only error is a want of memory.
fn is_shown(alloc: Global, outcome: &Outcome, text: &[u8]) -> Result<bool, AllocError>
    ensures { IfOk result (λ b. IsTrue b ↔ (printed_lines outcome.now.printed.items ≡ text.now)) }
{
    let mut shown = Vec::new(alloc);
    push_printed(&mut shown, &outcome.printed)?;
    Ok(are_same(&shown, text))
}

impl Wanted {
    /// Whether an outcome is wanted. The only error is a want of memory.
    pub fn is(&self, alloc: Global, outcome: &Outcome) -> Result<bool, AllocError>
        ensures { IfOk result (λ b. IsTrue b ↔ IsWanted self.now (told_by outcome.now)) }
    {
        match self {
            Wanted::Nothing => Ok(false),
            Wanted::Stuck => Ok(any_is_stuck(&outcome.threads)),
            Wanted::Uncaught => Ok(any_has_thrown(&outcome.threads)),
            Wanted::Printed(text) => Ok(are_same_units(&outcome.printed, text)),
            Wanted::PrintedOther(text) => Ok(!is_shown(alloc, outcome, text)?),
        }
    }
}
