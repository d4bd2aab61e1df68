//! The lines of outcomes.

ghost use Rattle.std.specs.Prelude.{◌≡◌, ◌++◌, OnOk, codes, length, map};
ghost use Rattle.model.specs.Report.{line, number};
ghost use Rattle.search.specs.run_outcomes.Outcomes.{told_by};
ghost use Rattle.search.specs.search_reports.Reports.{outcome_text, outcome_texts};

use crate::run_outcomes::{Outcome, Outcomes};
use schedule::report::{push_line, push_printed, push_threads};
use std::alloc::{AllocError, Global};

/// An outcome with its number.
fn push_outcome(
    alloc: Global,
    text: &mut Vec<u8>,
    place: usize,
    outcome: &Outcome,
) -> Result<(), AllocError>
    ensures { OnOk result (text.new.items ≡ text.old.items ++ outcome_text place (told_by outcome.now)) }
{
    push_line(text, format!(in alloc; "outcome {place}")?.as_bytes())?;
    push_printed(text, &outcome.printed)?;
    push_threads(alloc, text, &outcome.threads)
}

/// Outcomes, numbered from 1 on.
fn push_each(alloc: Global, text: &mut Vec<u8>, outcomes: &[Outcome]) -> Result<(), AllocError>
    ensures { OnOk result (text.new.items ≡ text.old.items ++ outcome_texts 1 (map told_by outcomes.now)) }
{
    for (at, outcome) in outcomes.iter().enumerate() {
        push_outcome(alloc, text, at + 1, outcome)?;
    }
    Ok(())
}

/// Outcomes, and how many there are.
pub(crate) fn push_outcomes(
    alloc: Global,
    text: &mut Vec<u8>,
    outcomes: &Outcomes,
) -> Result<(), AllocError>
    ensures { OnOk result (text.new.items ≡ text.old.items
        ++ (outcome_texts 1 outcomes.now ++ line (codes "outcomes " ++ number (length outcomes.now)))) }
{
    let all = outcomes.as_slice();
    push_each(alloc, text, all)?;
    let count = all.len();
    push_line(text, format!(in alloc; "outcomes {count}")?.as_bytes())
}
