//! What a search is to find, and which outcome of a run, as a word.

ghost use Rattle.std.specs.Prelude.{◌≡◌, ℤ, IfErr, IfOk, map};
ghost use Rattle.model.specs.Report.{signed_number};
ghost use Rattle.command_line.specs.CommandLine.{Asks, Refuses};
ghost use Rattle.command_line.specs.Goals.{AreEachInt, AreInts, IsGoalWord, IsGoalWith, IsInt, IsSearchGoalWord};
ghost use Rattle.command_line.specs.Goals as spec;

use crate::escaped_texts::units_of;
use crate::numbers::comma_parts;
use crate::options::{Goal, SearchGoal};
use crate::usage::Usage;
use std::alloc::Global;

/// What a search may be to find, as the text of a fault tells it.
const SEARCH_GOALS: &str =
    "race, uncaught, deadlock, endless, any, output=NUMBERS, text=TEXT, differs=FILE";

/// The outcomes of runs that may be to be found, as the text of a fault tells them.
pub(crate) const OUTCOMES: &str = "deadlock, uncaught, output=NUMBERS, text=TEXT, differs=FILE";

/// What a sweep may be to find, as the text of a fault tells it.
pub(crate) const SWEEP_GOALS: &str =
    "race, deadlock, uncaught, output=NUMBERS, text=TEXT, differs=FILE";

/// What a search is to find, by the word that names it.
pub(crate) fn search_goal_by(alloc: Global, word: &str) -> Result<SearchGoal, Usage>
    ensures named { IfOk result (IsSearchGoalWord word.now) }
    ensures none { IfErr result (λ usage. Refuses usage ((goal : _) → IsSearchGoalWord word.now goal → ⊥)) }
{
    if word == "race" {
        return Ok(SearchGoal::Race);
    }
    if word == "endless" {
        return Ok(SearchGoal::Endless);
    }
    if word == "any" {
        return Ok(SearchGoal::Any);
    }
    let goal = goal_by(alloc, word, SEARCH_GOALS)?;
    Ok(search_goal(goal))
}

/// What a search is to find that runs are searched for, too.
fn search_goal(goal: Goal) -> SearchGoal
    ensures { result ≡ spec.search_goal goal }
{
    match goal {
        Goal::Deadlock => SearchGoal::Deadlock,
        Goal::Uncaught => SearchGoal::Uncaught,
        Goal::Output(numbers) => SearchGoal::Output(numbers),
        Goal::Text(units) => SearchGoal::Text(units),
        Goal::Differs(path) => SearchGoal::Differs(path),
    }
}

/// The outcome that a word names. The possible words are told where it is none of them.
pub(crate) fn goal_by(alloc: Global, word: &str, possible: &str) -> Result<Goal, Usage>
    ensures named { IfOk result (IsGoalWord word.now) }
    ensures none { IfErr result (λ usage. Refuses usage ((goal : _) → IsGoalWord word.now goal → ⊥)) }
{
    if word == "deadlock" {
        return Ok(Goal::Deadlock);
    }
    if word == "uncaught" {
        return Ok(Goal::Uncaught);
    }
    match word.split_once('=') {
        Some((name, value)) => goal_with(alloc, word, name, value, possible),
        None => Err(no_goal(alloc, word, possible)),
    }
}

/// The fault that a word names no outcome of a run.
fn no_goal(alloc: Global, word: &str, possible: &str) -> Usage
    ensures { Asks result → ⊥ }
{
    if word == "race" || (word == "endless" || word == "any") {
        Usage::of_searches(alloc, word)
    } else {
        Usage::no_goal(alloc, word, possible)
    }
}

/// The outcome that a word names which is a name and a value with `=` between them.
fn goal_with(
    alloc: Global,
    word: &str,
    name: &str,
    value: &str,
    possible: &str,
) -> Result<Goal, Usage>
    ensures named { IfOk result (IsGoalWith name.now value.now) }
    ensures none { IfErr result (λ usage. Refuses usage ((goal : _) → IsGoalWith name.now value.now goal → ⊥)) }
{
    if name == "output" {
        return Ok(Goal::Output(ints(alloc, value)?));
    }
    if name == "text" {
        return Ok(Goal::Text(units_of(alloc, value)?));
    }
    if name == "differs" {
        return Ok(Goal::Differs(String::from_str(alloc, value)?));
    }
    Err(Usage::no_goal(alloc, word, possible))
}

/// The ints that a text spells, in decimal and with commas between them. The empty text spells none.
fn ints(alloc: Global, text: &str) -> Result<Vec<i32>, Usage>
    ensures ints { IfOk result (λ found. AreInts text.now found.items) }
    ensures none { IfErr result (λ usage. Refuses usage ((found : _) → AreInts text.now found → ⊥)) }
{
    if text.is_empty() {
        return Ok(Vec::new(alloc));
    }
    let parts = comma_parts(alloc, text)?;
    each_int(alloc, parts.as_slice())
}

/// The ints that texts spell, each one of them.
fn each_int(alloc: Global, texts: &[&str]) -> Result<Vec<i32>, Usage>
    ensures ints { IfOk result (λ found. AreEachInt (map (λ text. text.now) texts.now) found.items) }
    ensures none { IfErr result (λ usage. Refuses usage ((found : _)
        → AreEachInt (map (λ text. text.now) texts.now) found → ⊥)) }
{
    let mut ints = Vec::with_capacity(alloc, texts.len())?;
    for text in texts {
        ints.push(int(alloc, text)?)?;
    }
    Ok(ints)
}

/// The int that a text spells in decimal, with no more in front than a minus where it is negative.
fn int(alloc: Global, text: &str) -> Result<i32, Usage>
    ensures int { IfOk result (λ int. IsInt int × (text.now ≡ signed_number int)) }
    ensures none { IfErr result (λ usage. Refuses usage ((int : ℤ) → IsInt int → text.now ≡ signed_number int → ⊥)) }
{
    match text.parse::<i32>() {
        Ok(int) => as_spelled(alloc, int, text),
        Err(_) => Err(Usage::no_int(alloc, text)),
    }
}

/// An int, where this is the text that spells it.
fn as_spelled(alloc: Global, int: i32, text: &str) -> Result<i32, Usage>
    ensures int { IfOk result (λ same. (same ≡ int) × (text.now ≡ signed_number int)) }
    ensures none { IfErr result (λ usage. Refuses usage (text.now ≡ signed_number int → ⊥)) }
{
    if int.to_string(alloc)?.as_str() == text {
        Ok(int)
    } else {
        Err(Usage::no_int(alloc, text))
    }
}
