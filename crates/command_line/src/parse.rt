//! The reading of the command line.

ghost use Rattle.std.specs.Prelude.{◌≡◌, ◌⊎◌, List, codes, map, string_bytes, IfOk, IfErr, MatchOption};
ghost use Rattle.clap.specs.Words.{HasMatchesOf, first_of, found_of, kind_of, rows_of, Text};
ghost use Rattle.clap.specs.declared.error.kind.ErrorKind.TheVariants.{UnknownArgument as unknown_argument};
ghost use Rattle.command_line.specs.CommandLine.{AreDisasmValues, AreRacesValues, AreRunNumbers, AreRunValues, AreSearchValues, AreShrinkValues, AreTraceValues, AreValues, AreValuesOf, AreVerifyValues, Asks, Fails, IsRequiredGoal, IsThenRun, IsTraceForm, Refuses, Spells, UnlessSweep, name_of, usage_of};
ghost use Rattle.command_line.specs.Parsers.{jvm};
ghost use Rattle.command_line.specs.Policies.{GoTogether};

use crate::goal::OUTCOMES;
use crate::numbers::{
    BUDGET, FROM, MEMORY, ONLY, QUANTUM, SECONDS, STATES, TO, WHOLE_BUDGET, WORKERS,
    negative_number,
};
use crate::options;
use crate::options::{
    Disasm, Goal, Races, Replay, Run, Search, Shrink, ThenRun, Trace, TraceForm, Verify,
};
use crate::parsers::program;
use crate::paths::{check_file, check_goal, check_search_goal};
use crate::program_options::{apart_program_of, program_options_of};
use crate::run_arguments::{policy_of, seed_of};
use crate::run_options::{Clash, RunOptions};
use crate::schedule_arguments::listed_of;
use crate::sweep_arguments::{SEEDS, check_alone, follow_of, race_flag_of, sweep_of};
use crate::trace_arguments::html_of;
use crate::usage::Usage;
use crate::values::{
    check_beside, files_of, goal_of, is_set, missing, path_of, recorded_version_of, recording_of,
    required_path_of, search_goal_of,
};
use clap::ArgMatches;
use clap::error::ErrorKind;
use std::alloc::Global;

/// The command that the words spell, the program's name first.
pub fn command(alloc: Global, words: &[String]) -> Result<options::Command, Usage>
    ensures spelled { IfOk result (Spells (map string_bytes words.now)) }
    ensures refused { IfErr result (Fails (map string_bytes words.now)) }
{
    let matches = parsed(alloc, words)?;
    command_of(alloc, &matches)
}

/// The command that the words spell of which these are the matches.
fn command_of(alloc: Global, matches: &ArgMatches<'_>) -> Result<options::Command, Usage>
    ensures spelled { (words : List Text) → HasMatchesOf jvm words matches.now → IfOk result (Spells words) }
    ensures refused { (words : List Text) → HasMatchesOf jvm words matches.now → IfErr result (Fails words) }
{
    match matches.subcommand() {
        Some((name, found)) => named_command_of(alloc, name, found),
        None => Err(missing(alloc, "a subcommand is missing")),
    }
}

/// The command of this name that has these matches.
fn named_command_of(
    alloc: Global,
    name: &str,
    matches: &ArgMatches<'_>,
) -> Result<options::Command, Usage>
    ensures values { IfOk result (λ command. (name_of command ≡ name.now)
        × AreValuesOf (rows_of (found_of matches.now)) command) }
    ensures none { IfErr result (λ usage. Refuses usage ((command : _) → name_of command ≡ name.now
        → AreValuesOf (rows_of (found_of matches.now)) command → ⊥)) }
{
    match name {
        "run" => Ok(options::Command::Run(run_of(alloc, matches)?)),
        "replay" => Ok(options::Command::Replay(replay_of(alloc, matches)?)),
        "trace" => Ok(options::Command::Trace(trace_of(alloc, matches)?)),
        "races" => Ok(options::Command::Races(races_of(alloc, matches)?)),
        "search" => Ok(options::Command::Search(search_of(alloc, matches)?)),
        "shrink" => Ok(options::Command::Shrink(shrink_of(alloc, matches)?)),
        "verify" => Ok(options::Command::Verify(verify_of(alloc, matches)?)),
        "disasm" => Ok(options::Command::Disasm(disasm_of(alloc, matches)?)),
        "schedule" => listed_of(alloc, matches),
        _ => Err(missing(alloc, "there is no such subcommand")),
    }
}

/// What the parser finds in the words.
fn parsed<'a>(alloc: Global, words: &'a [String]) -> Result<ArgMatches<'a>, Usage>
    ensures matches { IfOk result (HasMatchesOf jvm (map string_bytes words.now)) }
    ensures refused { IfErr result (Fails (map string_bytes words.now)) }
{
    match program(alloc)?.try_get_matches_from(words) {
        Ok(matches) => Ok(matches),
        Err(error) => Err(parser_usage(alloc, words, error)),
    }
}

/// What the parser says of the words. A negative number it takes for an option that it doesn't know.
fn parser_usage(alloc: Global, words: &[String], error: clap::Error) -> Usage
    ensures { (result ≡ usage_of error) ⊎ ((kind_of error ≡ unknown_argument) × (Asks result → ⊥)) }
{
    if error.kind() == ErrorKind::UnknownArgument {
        if let Some((name, text)) = negative_number(words) {
            return Usage::no_number(alloc, name, text);
        }
    }
    Usage::from(error)
}

fn run_of(alloc: Global, matches: &ArgMatches<'_>) -> Result<Run, Usage>
    ensures values { IfOk result (AreRunValues (rows_of (found_of matches.now))) }
    ensures none { IfErr result (λ usage. Refuses usage ((run : _)
        → AreRunValues (rows_of (found_of matches.now)) run → ⊥)) }
{
    let options = run_options_of(alloc, matches)?;
    let seconds = SECONDS.number(alloc, matches)?;
    let sweep = sweep_of(alloc, matches)?;
    let recording = recording_of(alloc, matches)?;
    let program = apart_program_of(alloc, matches)?;
    let follow = follow_of(alloc, matches)?;
    let races = race_flag_of(alloc, matches)?;
    Ok(Run {
        options,
        seconds,
        sweep,
        record: recording.record,
        as_version: recording.as_version,
        limits: program.limits,
        main: program.main,
        files: program.files,
        explain: program.explain,
        quiet: program.quiet,
        files_alone: program.files_alone,
        follow,
        races,
    })
}

fn replay_of(alloc: Global, matches: &ArgMatches<'_>) -> Result<Replay, Usage>
    ensures values { IfOk result (AreValues (rows_of (found_of matches.now))) }
    ensures none { IfErr result (λ usage. Refuses usage ((replay : _)
        → AreValues (rows_of (found_of matches.now)) replay → ⊥)) }
{
    let schedule = required_path_of(alloc, matches, "schedule")?;
    let then_run = then_run_of(alloc, matches)?;
    let budget = WHOLE_BUDGET.number(alloc, matches)?;
    let program = apart_program_of(alloc, matches)?;
    check_file(alloc, matches, "record", schedule.as_str())?;
    Ok(Replay {
        schedule,
        any_files: is_set(matches, "any-files"),
        then_run,
        budget,
        limits: program.limits,
        main: program.main,
        files: program.files,
        explain: program.explain,
        quiet: program.quiet,
        files_alone: program.files_alone,
        follow: is_set(matches, "follow"),
    })
}

fn trace_of(alloc: Global, matches: &ArgMatches<'_>) -> Result<Trace, Usage>
    ensures values { IfOk result (AreTraceValues (rows_of (found_of matches.now))) }
    ensures none { IfErr result (λ usage. Refuses usage ((trace : _)
        → AreTraceValues (rows_of (found_of matches.now)) trace → ⊥)) }
{
    let schedule = required_path_of(alloc, matches, "schedule")?;
    let from = FROM.number(alloc, matches)?;
    let to = TO.number(alloc, matches)?;
    let only = ONLY.numbers(alloc, matches)?;
    let form = form_of(alloc, matches)?;
    let program = program_options_of(alloc, matches)?;
    let html = html_of(alloc, matches, schedule.as_str(), &program.files)?;
    Ok(Trace {
        schedule,
        any_files: is_set(matches, "any-files"),
        from,
        to,
        only,
        form,
        html,
        summary: is_set(matches, "summary"),
        limits: program.limits,
        main: program.main,
        files: program.files,
        explain: program.explain,
        quiet: program.quiet,
        files_alone: program.files_alone,
    })
}

fn races_of(alloc: Global, matches: &ArgMatches<'_>) -> Result<Races, Usage>
    ensures values { IfOk result (AreRacesValues (rows_of (found_of matches.now))) }
    ensures none { IfErr result (λ usage. Refuses usage ((races : _)
        → AreRacesValues (rows_of (found_of matches.now)) races → ⊥)) }
{
    let schedule = required_path_of(alloc, matches, "schedule")?;
    let program = program_options_of(alloc, matches)?;
    Ok(Races {
        schedule,
        any_files: is_set(matches, "any-files"),
        limits: program.limits,
        main: program.main,
        files: program.files,
        explain: program.explain,
        quiet: program.quiet,
        files_alone: program.files_alone,
    })
}

fn search_of(alloc: Global, matches: &ArgMatches<'_>) -> Result<Search, Usage>
    ensures values { IfOk result (AreSearchValues (rows_of (found_of matches.now))) }
    ensures none { IfErr result (λ usage. Refuses usage ((search : _)
        → AreSearchValues (rows_of (found_of matches.now)) search → ⊥)) }
{
    let goal = search_goal_of(alloc, matches)?;
    let states = STATES.number(alloc, matches)?;
    let memory = MEMORY.number(alloc, matches)?;
    let seconds = SECONDS.number(alloc, matches)?;
    let recording = recording_of(alloc, matches)?;
    let program = apart_program_of(alloc, matches)?;
    check_search_goal(alloc, matches, &goal)?;
    Ok(Search {
        goal,
        states,
        memory,
        seconds,
        record: recording.record,
        as_version: recording.as_version,
        limits: program.limits,
        main: program.main,
        files: program.files,
        explain: program.explain,
        quiet: program.quiet,
        files_alone: program.files_alone,
    })
}

fn shrink_of(alloc: Global, matches: &ArgMatches<'_>) -> Result<Shrink, Usage>
    ensures values { IfOk result (AreShrinkValues (rows_of (found_of matches.now))) }
    ensures none { IfErr result (λ usage. Refuses usage ((shrink : _)
        → AreShrinkValues (rows_of (found_of matches.now)) shrink → ⊥)) }
{
    let goal = required_goal_of(alloc, matches)?;
    let schedule = required_path_of(alloc, matches, "schedule")?;
    let budget = WHOLE_BUDGET.number(alloc, matches)?;
    let recording = recording_of(alloc, matches)?;
    let program = apart_program_of(alloc, matches)?;
    check_file(alloc, matches, "record", schedule.as_str())?;
    Ok(Shrink {
        goal,
        schedule,
        any_files: is_set(matches, "any-files"),
        budget,
        record: recording.record,
        as_version: recording.as_version,
        limits: program.limits,
        main: program.main,
        files: program.files,
        explain: program.explain,
        quiet: program.quiet,
        files_alone: program.files_alone,
    })
}

/// The outcome that has to be there, and that is read from no file which is to be written.
fn required_goal_of(alloc: Global, matches: &ArgMatches<'_>) -> Result<Goal, Usage>
    ensures goal { IfOk result (IsRequiredGoal (rows_of (found_of matches.now))) }
    ensures none { IfErr result (λ usage. Refuses usage ((goal : _)
        → IsRequiredGoal (rows_of (found_of matches.now)) goal → ⊥)) }
{
    let goal = goal_of(alloc, matches, OUTCOMES)?;
    check_goal(alloc, matches, &goal)?;
    match goal {
        Some(goal) => Ok(goal),
        None => Err(missing(alloc, "an outcome is missing")),
    }
}

fn verify_of(alloc: Global, matches: &ArgMatches<'_>) -> Result<Verify, Usage>
    ensures values { IfOk result (AreVerifyValues (rows_of (found_of matches.now))) }
    ensures none { IfErr result (λ usage. Refuses usage ((verify : _)
        → AreVerifyValues (rows_of (found_of matches.now)) verify → ⊥)) }
{
    let files = files_of(alloc, matches)?;
    let main = path_of(alloc, matches, "main")?;
    Ok(Verify {
        main,
        files,
        library: is_set(matches, "library"),
        explain: is_set(matches, "explain"),
        quiet: is_set(matches, "quiet"),
        files_alone: is_set(matches, "files-alone"),
    })
}

fn disasm_of(alloc: Global, matches: &ArgMatches<'_>) -> Result<Disasm, Usage>
    ensures values { IfOk result (AreDisasmValues (rows_of (found_of matches.now))) }
    ensures none { IfErr result (λ usage. Refuses usage ((disasm : _)
        → AreDisasmValues (rows_of (found_of matches.now)) disasm → ⊥)) }
{
    let files = files_of(alloc, matches)?;
    Ok(Disasm {
        files,
        names: is_set(matches, "names"),
        explain: is_set(matches, "explain"),
        quiet: is_set(matches, "quiet"),
    })
}

/// The form in which a trace is asked for. It is at most one, and stands beside no page.
fn form_of(alloc: Global, matches: &ArgMatches<'_>) -> Result<TraceForm, Usage>
    ensures form { IfOk result (IsTraceForm (rows_of (found_of matches.now))) }
    ensures none { IfErr result (λ usage. Refuses usage ((form : _)
        → IsTraceForm (rows_of (found_of matches.now)) form → ⊥)) }
{
    let columns = is_set(matches, "columns");
    let json = is_set(matches, "json");
    if columns && json {
        Err(Usage::not_together(alloc, "--columns", "--json"))
    } else if columns {
        check_alone(alloc, matches, "html", "--html <FILE>", "--columns")?;
        Ok(TraceForm::Columns)
    } else if json {
        check_alone(alloc, matches, "html", "--html <FILE>", "--json")?;
        Ok(TraceForm::Json)
    } else {
        Ok(TraceForm::Plain)
    }
}

/// How the run goes on where the schedule ends. `--record` stands beside `--then-run` alone, and so does
/// `--as-version`.
fn then_run_of(alloc: Global, matches: &ArgMatches<'_>) -> Result<Option<ThenRun>, Usage>
    ensures values { IfOk result (IsThenRun (rows_of (found_of matches.now))) }
    ensures none { IfErr result (λ usage. Refuses usage ((then_run : _)
        → IsThenRun (rows_of (found_of matches.now)) then_run → ⊥)) }
{
    let as_version = recorded_version_of(alloc, matches)?;
    if is_set(matches, "then-run") {
        let budget = WHOLE_BUDGET.number(alloc, matches)?;
        let record = path_of(alloc, matches, "record")?;
        Ok(Some(ThenRun {
            budget,
            record,
            as_version,
        }))
    } else {
        check_beside(alloc, matches, "record", "--then-run")?;
        Ok(None)
    }
}

fn run_options_of(alloc: Global, matches: &ArgMatches<'_>) -> Result<RunOptions, Usage>
    ensures numbers { IfOk result (AreRunNumbers (rows_of (found_of matches.now))) }
    ensures none { IfErr result (λ usage. Refuses usage ((options : _)
        → AreRunNumbers (rows_of (found_of matches.now)) options → ⊥)) }
{
    let options = RunOptions {
        workers: WORKERS.number(alloc, matches)?,
        budget: BUDGET.number(alloc, matches)?,
        quantum: QUANTUM.number(alloc, matches)?,
        seed: seed_of(alloc, matches)?,
        policy: policy_of(alloc, matches)?,
    };
    match clash_of(matches, &options) {
        None => Ok(options),
        Some((one, other)) => Err(Usage::not_together(alloc, one, other)),
    }
}

/// Two of the options of a run that don't go together, if there are such. Of a sweep each is looked at by itself.
fn clash_of(matches: &ArgMatches<'_>, options: &RunOptions) -> Option<Clash>
    ensures { MatchOption result (UnlessSweep (first_of (codes "seeds") (rows_of (found_of matches.now)))
        (GoTogether options.now.workers options.now.quantum options.now.seed options.now.policy))
        (λ _. UnlessSweep (first_of (codes "seeds") (rows_of (found_of matches.now)))
        (GoTogether options.now.workers options.now.quantum options.now.seed options.now.policy) → ⊥) }
{
    match matches.get_str(SEEDS) {
        Some(_) => None,
        None => options.clash(),
    }
}
