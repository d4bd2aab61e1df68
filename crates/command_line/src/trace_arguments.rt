//! The file that a page of a trace is written to.

ghost use Rattle.std.specs.Prelude.{◌≡◌, IfErr, IfOk, map, string_bytes};
ghost use Rattle.std.specs.Option.{option_map};
ghost use Rattle.clap.specs.Words.{found_of, rows_of};
ghost use Rattle.command_line.specs.CommandLine.{IsPageFile, Refuses};

use crate::paths::{check_file, check_files};
use crate::usage::Usage;
use crate::values::path_of;
use clap::ArgMatches;
use std::alloc::Global;

/// The file that a page is written to, if one is. It is neither the schedule nor one of the class files.
pub(crate) fn html_of(
    alloc: Global,
    matches: &ArgMatches<'_>,
    schedule: &str,
    files: &[String],
) -> Result<Option<String>, Usage>
    ensures page { IfOk result (λ html. IsPageFile (rows_of (found_of matches.now)) schedule.now
        (map string_bytes files.now) (option_map string_bytes html)) }
    ensures none { IfErr result (λ usage. Refuses usage ((html : _)
        → IsPageFile (rows_of (found_of matches.now)) schedule.now (map string_bytes files.now) html → ⊥)) }
{
    check_file(alloc, matches, "html", schedule)?;
    check_files(alloc, matches, "html", files)?;
    let html = path_of(alloc, matches, "html")?;
    Ok(html)
}
