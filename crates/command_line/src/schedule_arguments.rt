//! What `jvm schedule` is asked for: a schedule as text, a schedule file, or a text with places.

ghost use Rattle.std.specs.Prelude.{◌≡◌, ◌∷◌, [], false, IfErr, IfOk, Some, codes, map, string_bytes, true};
ghost use Rattle.clap.specs.Words.{Text, all_of, first_of, found_of, rows_of};
ghost use Rattle.command_line.specs.CommandLine.{ArePlacesValues, AreScheduleValues, AreValuesOf, IsMadeVersion, Refuses, is_set as is_true, name_of};

use crate::numbers::AS_VERSION;
use crate::options::{Command, Places, Schedule};
use crate::sweep_arguments::check_alone;
use crate::usage::Usage;
use crate::values::{check_beside, files_of, is_set, missing, no_version, path_of};
use clap::ArgMatches;
use std::alloc::Global;

/// What `jvm schedule` is asked for.
pub(crate) fn listed_of(alloc: Global, matches: &ArgMatches<'_>) -> Result<Command, Usage>
    ensures values { IfOk result (λ command. (name_of command ≡ codes "schedule")
        × AreValuesOf (rows_of (found_of matches.now)) command) }
    ensures none { IfErr result (λ usage. Refuses usage ((command : _) → name_of command ≡ codes "schedule"
        → AreValuesOf (rows_of (found_of matches.now)) command → ⊥)) }
{
    if is_set(matches, "places") {
        Ok(Command::Places(places_of(alloc, matches)?))
    } else {
        Ok(Command::Schedule(schedule_of(alloc, matches)?))
    }
}

/// A schedule as text, or the file of a text. That is for words without `--places`.
fn schedule_of(alloc: Global, matches: &ArgMatches<'_>) -> Result<Schedule, Usage>
    requires { is_true (first_of (codes "places") (rows_of (found_of matches.now))) ≡ false }
    ensures values { IfOk result (AreScheduleValues (rows_of (found_of matches.now))) }
    ensures none { IfErr result (λ usage. Refuses usage ((schedule : _)
        → AreScheduleValues (rows_of (found_of matches.now)) schedule → ⊥)) }
{
    check_beside(alloc, matches, "schedule", "--places")?;
    check_beside(alloc, matches, "main", "--places")?;
    check_places_flag(alloc, matches, "any-files")?;
    check_places_flag(alloc, matches, "files-alone")?;
    let file = one_file_of(alloc, matches)?;
    let as_version = made_version_of(alloc, matches)?;
    Ok(Schedule {
        file,
        write: is_set(matches, "write"),
        explain: is_set(matches, "explain"),
        quiet: is_set(matches, "quiet"),
        as_version,
    })
}

/// The version that a file is made in at most. `--as-version` stands beside `--write` alone.
fn made_version_of(alloc: Global, matches: &ArgMatches<'_>) -> Result<Option<u32>, Usage>
    ensures version { IfOk result (IsMadeVersion (rows_of (found_of matches.now))) }
    ensures none { IfErr result (λ usage. Refuses usage ((version : _)
        → IsMadeVersion (rows_of (found_of matches.now)) version → ⊥)) }
{
    let version = AS_VERSION.number(alloc, matches)?;
    if is_set(matches, "write") {
        Ok(version)
    } else {
        no_version(alloc, version, "--write")
    }
}

/// A text with places. That is for words with `--places`.
fn places_of(alloc: Global, matches: &ArgMatches<'_>) -> Result<Places, Usage>
    requires { is_true (first_of (codes "places") (rows_of (found_of matches.now))) ≡ true }
    ensures values { IfOk result (ArePlacesValues (rows_of (found_of matches.now))) }
    ensures none { IfErr result (λ usage. Refuses usage ((places : _)
        → ArePlacesValues (rows_of (found_of matches.now)) places → ⊥)) }
{
    check_flag_alone(alloc, matches, "write", "--write", "--places")?;
    check_alone(
        alloc,
        matches,
        "as-version",
        "--as-version <NUMBER>",
        "--places",
    )?;
    let schedule = placed_of(alloc, matches)?;
    let main = path_of(alloc, matches, "main")?;
    let files = files_of(alloc, matches)?;
    Ok(Places {
        schedule,
        any_files: is_set(matches, "any-files"),
        main,
        files,
        explain: is_set(matches, "explain"),
        quiet: is_set(matches, "quiet"),
        files_alone: is_set(matches, "files-alone"),
    })
}

/// The schedule of which a text with places is made.
fn placed_of(alloc: Global, matches: &ArgMatches<'_>) -> Result<String, Usage>
    ensures path { IfOk result (λ path.
        first_of (codes "schedule") (rows_of (found_of matches.now)) ≡ Some (string_bytes path)) }
    ensures none { IfErr result (λ usage. Refuses usage ((path : _)
        → first_of (codes "schedule") (rows_of (found_of matches.now)) ≡ Some path → ⊥)) }
{
    match path_of(alloc, matches, "schedule")? {
        Some(path) => Ok(path),
        None => Err(Usage::not_provided(alloc, "--schedule <FILE>")),
    }
}

/// Refuses a flag that stands beside `--places` alone.
fn check_places_flag(alloc: Global, matches: &ArgMatches<'_>, name: &str) -> Result<(), Usage>
    ensures ok { IfOk result (λ _. is_true (first_of name.now (rows_of (found_of matches.now))) ≡ false) }
    ensures none { IfErr result (λ usage. Refuses usage
        (is_true (first_of name.now (rows_of (found_of matches.now))) ≡ false → ⊥)) }
{
    if is_set(matches, name) {
        Err(Usage::not_provided(alloc, "--places"))
    } else {
        Ok(())
    }
}

/// Refuses a flag beside another option. As help tells them, these are their names.
fn check_flag_alone(
    alloc: Global,
    matches: &ArgMatches<'_>,
    name: &str,
    told: &str,
    other: &str,
) -> Result<(), Usage>
    ensures ok { IfOk result (λ _. is_true (first_of name.now (rows_of (found_of matches.now))) ≡ false) }
    ensures none { IfErr result (λ usage. Refuses usage
        (is_true (first_of name.now (rows_of (found_of matches.now))) ≡ false → ⊥)) }
{
    if is_set(matches, name) {
        Err(Usage::not_together(alloc, told, other))
    } else {
        Ok(())
    }
}

/// The one file of a command.
fn one_file_of(alloc: Global, matches: &ArgMatches<'_>) -> Result<String, Usage>
    ensures file { IfOk result (λ file. all_of (codes "files") (rows_of (found_of matches.now))
        ≡ Some (string_bytes file ∷ [])) }
    ensures none { IfErr result (λ usage. Refuses usage ((file : Text)
        → all_of (codes "files") (rows_of (found_of matches.now)) ≡ Some (file ∷ []) → ⊥)) }
{
    match matches.get_strs("files") {
        Some(paths) => only(alloc, paths),
        None => Err(missing(alloc, "the file is missing")),
    }
}

/// A word that is alone.
fn only(alloc: Global, words: &[&str]) -> Result<String, Usage>
    ensures word { IfOk result (λ word. map (λ text. text.now) words.now ≡ string_bytes word ∷ []) }
    ensures none { IfErr result (λ usage. Refuses usage ((word : Text)
        → map (λ text. text.now) words.now ≡ word ∷ [] → ⊥)) }
{
    match words {
        [word] => Ok(String::from_str(alloc, word)?),
        [_, other, ..] => Err(Usage::not_expected(alloc, other)),
        [] => Err(missing(alloc, "the file is missing")),
    }
}
