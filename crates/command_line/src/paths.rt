//! Paths of files, as words: that a file that is to be written isn't read, too.

ghost use Rattle.std.specs.Prelude.{◌≡◌, ◌++◌, ◌==◌, ◌↔◌, All, IfErr, IfOk, IsTrue, OnOk, codes, map, string_bytes};
ghost use Rattle.std.specs.List.{slice_split};
ghost use Rattle.clap.specs.Words.{first_of, found_of, rows_of};
ghost use Rattle.command_line.specs.CommandLine.{Refuses};
ghost use Rattle.command_line.specs.Paths.{IsApart, IsGoalApart, IsSamePath, IsSearchGoalApart};
ghost use Rattle.command_line.specs.Paths as spec;

use crate::options::{Goal, SearchGoal};
use crate::usage::Usage;
use clap::ArgMatches;
use std::alloc::{AllocError, Global};

/// Refuses an option, by its name, with a file that is one of these, which are read.
pub(crate) fn check_files(
    alloc: Global,
    matches: &ArgMatches<'_>,
    option: &str,
    read: &[String],
) -> Result<(), Usage>
    ensures apart { IfOk result (λ _. All (IsApart (first_of option.now (rows_of (found_of matches.now))))
        (map string_bytes read.now)) }
    ensures none { IfErr result (λ usage. Refuses usage (
        All (IsApart (first_of option.now (rows_of (found_of matches.now)))) (map string_bytes read.now) → ⊥)) }
{
    for path in read {
        check_file(alloc, matches, option, path.as_str())?;
    }
    Ok(())
}

/// Refuses `--record` with the file that a search compares with, if it does.
pub(crate) fn check_search_goal(
    alloc: Global,
    matches: &ArgMatches<'_>,
    goal: &Option<SearchGoal>,
) -> Result<(), Usage>
    ensures apart { IfOk result (λ _.
        IsSearchGoalApart (first_of (codes "record") (rows_of (found_of matches.now))) goal.now) }
    ensures none { IfErr result (λ usage. Refuses usage (
        IsSearchGoalApart (first_of (codes "record") (rows_of (found_of matches.now))) goal.now → ⊥)) }
{
    match goal {
        Some(SearchGoal::Differs(path)) => check_file(alloc, matches, "record", path.as_str()),
        Some(
            SearchGoal::Race
            | SearchGoal::Uncaught
            | SearchGoal::Deadlock
            | SearchGoal::Endless
            | SearchGoal::Any
            | SearchGoal::Output(_)
            | SearchGoal::Text(_),
        )
        | None => Ok(()),
    }
}

/// Refuses `--record` with the file that outcomes of runs are compared with, if they are.
pub(crate) fn check_goal(
    alloc: Global,
    matches: &ArgMatches<'_>,
    goal: &Option<Goal>,
) -> Result<(), Usage>
    ensures apart { IfOk result (λ _.
        IsGoalApart (first_of (codes "record") (rows_of (found_of matches.now))) goal.now) }
    ensures none { IfErr result (λ usage. Refuses usage (
        IsGoalApart (first_of (codes "record") (rows_of (found_of matches.now))) goal.now → ⊥)) }
{
    match goal {
        Some(Goal::Differs(path)) => check_file(alloc, matches, "record", path.as_str()),
        Some(Goal::Deadlock | Goal::Uncaught | Goal::Output(_) | Goal::Text(_)) | None => Ok(()),
    }
}

/// Refuses an option, by its name, with this file, which is read.
pub(crate) fn check_file(
    alloc: Global,
    matches: &ArgMatches<'_>,
    option: &str,
    read: &str,
) -> Result<(), Usage>
    ensures apart { IfOk result (λ _. IsApart (first_of option.now (rows_of (found_of matches.now))) read.now) }
    ensures none { IfErr result (λ usage. Refuses usage (
        IsApart (first_of option.now (rows_of (found_of matches.now))) read.now → ⊥)) }
{
    match matches.get_str(option) {
        Some(written) => check_path(alloc, option, written, read),
        None => Ok(()),
    }
}

/// Refuses a path of what is written, by an option of this name, that is this path, too, of what is read.
fn check_path(alloc: Global, option: &str, written: &str, read: &str) -> Result<(), Usage>
    ensures apart { IfOk result (λ _. IsSamePath written.now read.now → ⊥) }
    ensures none { IfErr result (λ usage. Refuses usage ((IsSamePath written.now read.now → ⊥) → ⊥)) }
{
    if is_same_path(alloc, written, read)? {
        Err(Usage::read_too(alloc, option, written))
    } else {
        Ok(())
    }
}

/// Whether two words are one path, but for what leads nowhere.
pub fn is_same_path(alloc: Global, one: &str, other: &str) -> Result<bool, AllocError>
    ensures path { IfOk result (λ same. IsTrue same ↔ IsSamePath one.now other.now) }
    ensures is { IfOk result (λ same. same ≡ spec.is_same_path one.now other.now) }
{
    let steps = steps_of(alloc, one)?;
    let others = steps_of(alloc, other)?;
    Ok(is_absolute(one) == is_absolute(other) && steps.as_str() == others.as_str())
}

/// Whether a path begins at the root.
pub fn is_absolute(path: &str) -> bool
    ensures { result ≡ spec.is_absolute path.now }
{
    path.starts_with('/')
}

/// Where a path leads, step by step, without what leads nowhere. Each step has a slash before it.
pub fn steps_of(alloc: Global, path: &str) -> Result<String, AllocError>
    ensures { IfOk result (λ steps. string_bytes steps ≡ spec.steps_of path.now) }
{
    let mut steps = String::new(alloc);
    let parts = slash_parts(alloc, path)?;
    for part in &parts {
        push_step(&mut steps, part)?;
    }
    Ok(steps)
}

/// The parts of a path between its slashes.
fn slash_parts(alloc: Global, path: &str) -> Result<Vec<&str>, AllocError>
    ensures { IfOk result (λ parts. map (λ part. part.now) parts.items ≡ slice_split (λ b. b == 0x2f) path.now) }
{
    path.split('/').collect(alloc)
}

/// Appends a part of a path as a step, if it leads somewhere.
fn push_step(steps: &mut String, part: &str) -> Result<(), AllocError>
    ensures { OnOk result (string_bytes steps.new ≡ string_bytes steps.old ++ spec.step_of part.now) }
{
    if part.is_empty() || part == "." {
        return Ok(());
    }
    steps.push_str("/")?;
    steps.push_str(part)?;
    Ok(())
}
