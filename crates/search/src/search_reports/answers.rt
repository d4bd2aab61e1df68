//! The text of what a search answers.

ghost use Rattle.std.specs.Prelude.{◌≡◌, ◌++◌, IfOk, OnOk, codes};
ghost use Rattle.search.specs.search_reports.Reports.{answer_word, found_text, kind_lines, line_if, race_kind};
ghost use Rattle.search.specs.search_reports.Reports.{race_line, scope_text, search_text};

use crate::kinds::Kinds;
use crate::run_outcomes::Outcomes;
use crate::search_reports::outcomes::push_outcomes;
use model::{End, Report};
use schedule::Schedule;
use schedule::report::push_line;
use std::alloc::{AllocError, Global};

/// What a search answers.
#[derive(Drop)]
pub enum Answer {
    /// A schedule of a run that ends with a wanted outcome, or comes to a state of a kind that is to be found, in as
    /// few entries as its events can have; the report of the run; and its end: `Quiet`, or `Schedule` where a thread may
    /// go on.
    Found(Schedule, Report, End),
    /// The outcomes of all runs that end, and the kinds of the states that any run comes to. None is to be found.
    Complete(Outcomes, Kinds),
    /// Nothing.
    GaveUp,
}

/// What a search answers, and how many states it met.
#[derive(Drop)]
pub struct SearchReport {
    pub answer: Answer,
    pub states: u32,
    /// Of a complete answer with races a schedule to a racy state, the first one that was met.
    pub race: Option<Schedule>,
    /// Whether the classes name methods whose edges of happens-before are this machine's own.
    pub own_edges: bool,
}

/// A line of a kind, where it is told.
fn push_kind(text: &mut Vec<u8>, is_told: bool, line: &[u8]) -> Result<(), AllocError>
    ensures { OnOk result (text.new.items ≡ text.old.items ++ line_if is_told line.now) }
{
    if is_told {
        push_line(text, line)
    } else {
        Ok(())
    }
}

/// The line of the kind of races: `kind `, and the line of a race behind it.
fn push_told_race(text: &mut Vec<u8>, race: &[u8]) -> Result<(), AllocError>
    ensures { OnOk result (text.new.items ≡ text.old.items ++ (codes "kind " ++ race.now)) }
{
    text.extend_from_slice(b"kind ")?;
    text.extend_from_slice(race)?;
    Ok(())
}

/// The same, where it is told.
fn push_race(text: &mut Vec<u8>, is_told: bool, race: &[u8]) -> Result<(), AllocError>
    ensures { OnOk result (text.new.items ≡ text.old.items ++ race_kind is_told race.now) }
{
    if is_told {
        push_told_race(text, race)
    } else {
        Ok(())
    }
}

/// A line for each kind that is told, and the line of a race with it.
fn push_kinds(text: &mut Vec<u8>, kinds: Kinds, race: &[u8]) -> Result<(), AllocError>
    ensures { OnOk result (text.new.items ≡ text.old.items ++ kind_lines kinds race.now) }
{
    push_race(text, kinds.race, race)?;
    push_kind(text, kinds.uncaught, b"kind uncaught")?;
    push_kind(text, kinds.deadlock, b"kind deadlock")?;
    push_kind(text, kinds.endless, b"kind endless")?;
    Ok(())
}

/// The report of a run, or outcomes and kinds with the line of a race.
fn push_found(
    alloc: Global,
    text: &mut Vec<u8>,
    answer: &Answer,
    race: &[u8],
) -> Result<(), AllocError>
    ensures { OnOk result (text.new.items ≡ text.old.items ++ found_text answer.now race.now) }
{
    match answer {
        Answer::Found(_, report, end) => {
            let lines = schedule::report::text(alloc, report, end)?;
            text.extend_from_slice(&lines)?;
            Ok(())
        }
        Answer::Complete(outcomes, kinds) => {
            push_outcomes(alloc, text, outcomes)?;
            push_kinds(text, *kinds, race)
        }
        Answer::GaveUp => Ok(()),
    }
}

/// That there is no data race, where no run comes to a racy state.
fn push_races(text: &mut Vec<u8>, kinds: Kinds, own_edges: bool) -> Result<(), AllocError>
    ensures { OnOk result (text.new.items ≡ text.old.items ++ race_line kinds.race own_edges) }
{
    if kinds.race {
        Ok(())
    } else if own_edges {
        push_line(text, b"no data race, by edges of this machine's own")
    } else {
        push_line(text, b"no data race: correctly synchronized")
    }
}

/// Of which runs the outcomes of a complete answer are, and that there is no data race, where no run comes to a racy
/// state.
fn push_scope(text: &mut Vec<u8>, answer: &Answer, own_edges: bool) -> Result<(), AllocError>
    ensures { OnOk result (text.new.items ≡ text.old.items ++ scope_text answer.now own_edges) }
{
    match answer {
        Answer::Complete(_, kinds) => {
            push_line(text, b"of runs that end")?;
            push_races(text, *kinds, own_edges)
        }
        Answer::Found(_, _, _) | Answer::GaveUp => Ok(()),
    }
}

impl Answer {
    /// What the answer is, in a word or two.
    fn word(&self) -> &str
        ensures { result.now ≡ answer_word self.now }
    {
        match self {
            Answer::Found(_, _, _) => "found",
            Answer::Complete(_, _) => "complete",
            Answer::GaveUp => "gave up",
        }
    }
}

impl SearchReport {
    /// The text of what a search answers. Where a run was found it is the text of the run's report. Where all outcomes
    /// are known, it is a line `outcome` with a number for each of them, from 1 on, behind it the printed text and
    /// the threads as a report has them, behind these a line `outcomes` with their number, and a line `kind` for each
    /// kind that some run shows, in the order `race`, `uncaught`, `deadlock`, `endless`. That of `race` is `kind ` with
    /// the line of a race behind it, which is handed in. Then come a line `states` with their number; where all
    /// outcomes are known, a line `of runs that end`, and one that there is no data race, if there is none; and a line
    /// `search` with `found`, `complete` or `gave up`. Outcomes are of runs that end, kinds of all. Each line ends with
    /// a line feed. The only error is a want of memory.
    pub fn text(&self, alloc: Global, race: &[u8]) -> Result<Vec<u8>, AllocError>
        ensures { IfOk result (λ v. v.items ≡ search_text self.now.answer race.now self.now.own_edges
            self.now.states) }
    {
        let states = self.states;
        let mut text = Vec::new(alloc);
        push_found(alloc, &mut text, &self.answer, race)?;
        push_line(&mut text, format!(in alloc; "states {states}")?.as_bytes())?;
        push_scope(&mut text, &self.answer, self.own_edges)?;
        let word = self.answer.word();
        push_line(&mut text, format!(in alloc; "search {word}")?.as_bytes())?;
        Ok(text)
    }
}
