//! Options of the program that a command runs, which several commands have.

ghost use Rattle.std.specs.Prelude.{IfErr, IfOk};
ghost use Rattle.clap.specs.Words.{found_of, rows_of};
ghost use Rattle.command_line.specs.CommandLine.{Refuses};
ghost use Rattle.command_line.specs.Programs.{AreApartValues, AreProgramValues};

use crate::options::LimitOptions;
use crate::paths::check_files;
use crate::usage::Usage;
use crate::values::{files_of, is_set, limits_of, path_of};
use clap::ArgMatches;
use std::alloc::Global;

/// A program of class files, and what standard error tells of it.
#[derive(Drop)]
pub(crate) struct ProgramOptions {
    pub(crate) limits: LimitOptions,
    /// The name of the class whose `main` is run, with dots or slashes, if it is given.
    pub(crate) main: Option<String>,
    /// The paths of the class files, and of folders of them.
    pub(crate) files: Vec<String>,
    /// Whether a refusal is explained.
    pub(crate) explain: bool,
    /// Whether standard error tells no more than why there is no output.
    pub(crate) quiet: bool,
    /// Whether no class is added from the library.
    pub(crate) files_alone: bool,
}

/// The program that the words name.
pub(crate) fn program_options_of(
    alloc: Global,
    matches: &ArgMatches<'_>,
) -> Result<ProgramOptions, Usage>
    ensures values { IfOk result (AreProgramValues (rows_of (found_of matches.now))) }
    ensures none { IfErr result (λ usage. Refuses usage ((program : _)
        → AreProgramValues (rows_of (found_of matches.now)) program → ⊥)) }
{
    let limits = limits_of(alloc, matches)?;
    let main = path_of(alloc, matches, "main")?;
    let files = files_of(alloc, matches)?;
    Ok(ProgramOptions {
        limits,
        main,
        files,
        explain: is_set(matches, "explain"),
        quiet: is_set(matches, "quiet"),
        files_alone: is_set(matches, "files-alone"),
    })
}

/// The program that the words name, where `--record` names none of its files.
pub(crate) fn apart_program_of(
    alloc: Global,
    matches: &ArgMatches<'_>,
) -> Result<ProgramOptions, Usage>
    ensures values { IfOk result (AreApartValues (rows_of (found_of matches.now))) }
    ensures none { IfErr result (λ usage. Refuses usage ((program : _)
        → AreApartValues (rows_of (found_of matches.now)) program → ⊥)) }
{
    let program = program_options_of(alloc, matches)?;
    check_files(alloc, matches, "record", &program.files)?;
    Ok(program)
}
