//! The text of what comes of a sweep.

ghost use Rattle.std.specs.Prelude.{◌≡◌, ◌++◌, ◌+◌, ◌-◌, ◌==◌, ◌&&◌, ◌≤◌, ◌<◌, ◌^◌};
ghost use Rattle.std.specs.Prelude.{IfOk, OnOk, codes, count_by, map, min};
ghost use Rattle.model.specs.Report.{line, number};
ghost use Rattle.search.specs.search_reports.Reports.{outcome_text};
ghost use Rattle.search.specs.run_outcomes.Outcomes.{told_by};
ghost use Rattle.sweeps.specs.Policies.{name_of};
ghost use Rattle.sweeps.specs.Shown.{shown_in};
ghost use Rattle.sweeps.specs.Tallies.{same_in};
ghost use Rattle.sweeps.specs.Texts as spec;
ghost use Rattle.sweeps.specs.Texts.{cut_line, cut_part, cut_texts, end_text, is_outcome};
ghost use Rattle.sweeps.specs.Texts.{outcome_part, outcome_texts, seeds_line, share_line, unseen_line};

use crate::policy_runs::SeededPolicy;
use crate::same_runs::SameRuns;
use crate::shown::Shown;
use crate::sweeping::{SweepEnd, SweepReport};
use crate::tallies::Tally;
use schedule::report::{push_line, push_printed, push_threads};
use search::run_outcomes::Outcome;
use std::alloc::{AllocError, Global};

impl Shown {
    /// Whether it is an outcome.
    pub fn is_outcome(&self) -> bool
        ensures { result ≡ is_outcome (shown_in self.now) }
    {
        matches!(self, Shown::Outcome(_))
    }
}

/// An outcome with its number.
fn push_outcome(
    alloc: Global,
    text: &mut Vec<u8>,
    number: usize,
    outcome: &Outcome,
) -> Result<(), AllocError>
    ensures { OnOk result (text.new.items ≡ text.old.items ++ outcome_text number (told_by outcome.now)) }
{
    push_line(text, format!(in alloc; "outcome {number}")?.as_bytes())?;
    push_printed(text, &outcome.printed)?;
    push_threads(alloc, text, &outcome.threads)
}

/// How many of all runs show the same, and the seed of the first one.
fn push_share(
    alloc: Global,
    text: &mut Vec<u8>,
    all: u128,
    same: &SameRuns,
) -> Result<(), AllocError>
    ensures { OnOk result (text.new.items ≡ text.old.items ++ share_line all (same_in same.now)) }
{
    let count = same.count;
    let first = same.first;
    push_line(
        text,
        format!(in alloc; "runs {count} of {all}, first seed {first}")?.as_bytes(),
    )
}

/// An outcome with its number, where this is one.
fn push_same(
    alloc: Global,
    text: &mut Vec<u8>,
    all: u128,
    number: usize,
    same: &SameRuns,
) -> Result<(), AllocError>
    ensures { OnOk result (text.new.items
        ≡ text.old.items ++ outcome_part (shown_in same.now.shown) all number (same_in same.now)) }
{
    match &same.shown {
        Shown::Outcome(outcome) => {
            push_outcome(alloc, text, number, outcome)?;
            push_share(alloc, text, all, same)
        }
        Shown::Budget | Shown::Refused => Ok(()),
    }
}

/// The number of the next outcome behind this one, or behind what is none.
fn next_number(same: &SameRuns, number: usize) -> usize
    requires { number < usize.MAX }
    ensures { result ≡ spec.next_number (shown_in same.now.shown) number }
{
    match &same.shown {
        Shown::Outcome(_) => number + 1,
        Shown::Budget | Shown::Refused => number,
    }
}

/// The outcomes among these, numbered from 1 on.
fn push_outcomes(
    alloc: Global,
    text: &mut Vec<u8>,
    all: u128,
    listed: &[SameRuns],
) -> Result<(), AllocError>
    ensures { OnOk result (text.new.items ≡ text.old.items ++ outcome_texts all 1 (map same_in listed.now)) }
{
    let mut number = 1usize;
    for same in listed {
        push_same(alloc, text, all, number, same)?;
        number = next_number(same, number);
    }
    Ok(())
}

/// A line of runs that have no outcome.
fn push_cut(
    alloc: Global,
    text: &mut Vec<u8>,
    word: &str,
    same: &SameRuns,
) -> Result<(), AllocError>
    ensures { OnOk result (text.new.items ≡ text.old.items ++ cut_line word.now (same_in same.now)) }
{
    let count = same.count;
    let first = same.first;
    push_line(
        text,
        format!(in alloc; "{word}{count} runs, first seed {first}")?.as_bytes(),
    )
}

/// A line of runs that have no outcome, where these have none.
fn push_cut_part(alloc: Global, text: &mut Vec<u8>, same: &SameRuns) -> Result<(), AllocError>
    ensures { OnOk result (text.new.items
        ≡ text.old.items ++ cut_part (shown_in same.now.shown) (same_in same.now)) }
{
    match &same.shown {
        Shown::Outcome(_) => Ok(()),
        Shown::Budget => push_cut(alloc, text, "budget ", same),
        Shown::Refused => push_cut(alloc, text, "refused ", same),
    }
}

/// The lines of those that have no outcome.
fn push_cuts(alloc: Global, text: &mut Vec<u8>, listed: &[SameRuns]) -> Result<(), AllocError>
    ensures { OnOk result (text.new.items ≡ text.old.items ++ cut_texts (map same_in listed.now)) }
{
    for same in listed {
        push_cut_part(alloc, text, same)?;
    }
    Ok(())
}

/// How many outcomes are among these.
fn outcome_count(listed: &[SameRuns]) -> usize
    ensures { result ≡ spec.outcomes_in (map same_in listed.now) }
{
    listed.iter().filter(|same| same.shown.is_outcome()).count()
}

/// Whether one run alone shows it, and it is an outcome.
fn is_once(same: &SameRuns) -> bool
    ensures { result ≡ (is_outcome (shown_in same.now.shown) && (same.now.count == 1)) }
{
    same.shown.is_outcome() && same.count == 1
}

/// How many outcomes one run alone has shown.
fn once_count(listed: &[SameRuns]) -> usize
    ensures { result ≡ spec.once_in (map same_in listed.now) }
{
    listed.iter().filter(|same| is_once(same)).count()
}

/// How many runs there were, and by which seeds.
fn push_seeds(alloc: Global, text: &mut Vec<u8>, runs: u128, first: u64) -> Result<(), AllocError>
    requires { runs ≤ 2 ^ 64 }
    ensures { OnOk result (text.new.items ≡ text.old.items ++ seeds_line runs first) }
{
    let last = last_seed(runs, first);
    push_line(
        text,
        format!(in alloc; "runs {runs}, seeds {first}..{last}")?.as_bytes(),
    )
}

/// The seed of the last run, of which there is one at least.
fn last_seed(runs: u128, first: u64) -> u128
    requires { runs ≤ 2 ^ 64 }
    ensures { result ≡ first + runs - 1 }
{
    (u128::from(first) + runs).saturating_sub(1)
}

/// How many of further runs may show what none has shown.
fn push_unseen(
    alloc: Global,
    text: &mut Vec<u8>,
    policy: SeededPolicy,
    runs: u128,
    once: usize,
) -> Result<(), AllocError>
    ensures { OnOk result (text.new.items ≡ text.old.items ++ unseen_line policy runs once) }
{
    let most = (once as u128 + 3).min(runs);
    let name = policy.name();
    push_line(
        text,
        format!(in alloc; "unseen at most {most} in {runs} runs of {name}")?.as_bytes(),
    )
}

/// What runs have shown, and how many outcomes are among it.
fn push_shown(
    alloc: Global,
    text: &mut Vec<u8>,
    all: u128,
    listed: &[SameRuns],
) -> Result<(), AllocError>
    ensures { OnOk result (text.new.items ≡ text.old.items ++ spec.shown_text all (map same_in listed.now)) }
{
    push_outcomes(alloc, text, all, listed)?;
    let outcomes = outcome_count(listed);
    push_line(text, format!(in alloc; "outcomes {outcomes}")?.as_bytes())?;
    push_cuts(alloc, text, listed)
}

/// How many runs and events there were, and how many of further runs may show what none has shown.
fn push_sums(
    alloc: Global,
    text: &mut Vec<u8>,
    policy: SeededPolicy,
    first: u64,
    tally: &Tally,
) -> Result<(), AllocError>
    ensures { OnOk result (text.new.items ≡ text.old.items ++ spec.sums_text policy first tally.now) }
{
    let runs = tally.runs();
    push_seeds(alloc, text, runs, first)?;
    let events = tally.events();
    push_line(text, format!(in alloc; "events {events}")?.as_bytes())?;
    let once = once_count(tally.same());
    push_line(text, format!(in alloc; "once {once}")?.as_bytes())?;
    push_unseen(alloc, text, policy, runs, once)
}

/// What all runs have shown.
fn push_tally(
    alloc: Global,
    text: &mut Vec<u8>,
    policy: SeededPolicy,
    first: u64,
    tally: &Tally,
) -> Result<(), AllocError>
    ensures { OnOk result (text.new.items ≡ text.old.items ++ spec.tally_text policy first tally.now) }
{
    push_shown(alloc, text, tally.runs(), tally.same())?;
    push_sums(alloc, text, policy, first, tally)
}

/// Why there are no more runs, and where one shows what is wanted, how to have it once more.
fn push_end(
    alloc: Global,
    text: &mut Vec<u8>,
    end: SweepEnd,
    seed: u128,
    words: &str,
) -> Result<(), AllocError>
    ensures { OnOk result (text.new.items ≡ text.old.items ++ end_text end seed words.now) }
{
    match end {
        SweepEnd::Done => push_line(text, b"sweep done"),
        SweepEnd::GaveUp => push_line(text, b"sweep gave up: seconds"),
        SweepEnd::Found => {
            push_line(text, b"sweep found")?;
            push_line(
                text,
                format!(in alloc; "jvm run --seed {seed}{words}")?.as_bytes(),
            )
        }
    }
}

/// The text of what has come of a sweep by a policy. Each outcome by its number, from 1 on, with the printed text
/// and the threads as a report has them, and how many runs have shown it; how many outcomes there are; how many runs
/// the budget or a limit has ended; how many runs and events there were; how many outcomes were met once, and how many
/// of further runs show another one, at most; and why there are no more runs. Where one shows what is wanted the last
/// line repeats it, with these words behind its seed. Each line ends with a line feed. The only error is a want of
/// memory.
pub fn sweep_text(
    alloc: Global,
    sweep: &SweepReport,
    policy: SeededPolicy,
    words: &str,
) -> Result<Vec<u8>, AllocError>
    ensures { IfOk result (λ v.
        v.items ≡ spec.sweep_text policy sweep.now.first words.now sweep.now.tally sweep.now.end) }
{
    let mut text = Vec::new(alloc);
    push_tally(alloc, &mut text, policy, sweep.first, &sweep.tally)?;
    let seed = last_seed(sweep.tally.runs(), sweep.first);
    push_end(alloc, &mut text, sweep.end, seed, words)?;
    Ok(text)
}
