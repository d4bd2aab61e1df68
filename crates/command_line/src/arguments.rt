//! Arguments of the parsers.

ghost use Rattle.std.specs.Prelude.{◌≡◌, codes, false};
ghost use Rattle.clap.specs.Words.{rule_of};
ghost use Rattle.command_line.specs.Parsers.{alone_flag, class_files, flag, goal_option, main_option, number_option, path_option, record_option, required_goal_option, schedule_option};

use crate::help::OUTCOME_HELP;
use clap::builder::ValueParser;
use clap::{Arg, ArgAction};
use std::alloc::Global;

/// The file of the schedule, which has to be there.
pub(crate) fn schedule_argument<'a>(alloc: Global) -> Arg<'a>
    ensures rule { rule_of result ≡ schedule_option }
    ensures local { result.global ≡ false }
{
    path_argument(
        alloc,
        "schedule",
        "The schedule file, or its text, or '0*22 1'",
    )
    .required(true)
}

/// Whether the schedule is for any class files.
pub(crate) fn any_files_argument<'a>(alloc: Global) -> Arg<'a>
    ensures rule { rule_of result ≡ flag (codes "any-files") }
    ensures local { result.global ≡ false }
{
    flag_argument(
        alloc,
        "any-files",
        "Takes any class files, whatever the schedule was recorded over",
    )
}

/// The file that a schedule is written to, or the folder for several.
pub(crate) fn record_argument<'a>(alloc: Global, help: &'a str) -> Arg<'a>
    ensures rule { rule_of result ≡ record_option }
    ensures local { result.global ≡ false }
{
    path_argument(alloc, "record", help)
}

/// The class whose main is run.
pub(crate) fn main_argument<'a>(alloc: Global) -> Arg<'a>
    ensures rule { rule_of result ≡ main_option }
    ensures local { result.global ≡ false }
{
    value_argument(
        alloc,
        "main",
        "NAME",
        "The class whose main method is run, as bank.Main or bank/Main",
    )
}

/// That no class is added from the library.
pub(crate) fn alone_argument<'a>(alloc: Global) -> Arg<'a>
    ensures rule { rule_of result ≡ alone_flag }
    ensures local { result.global ≡ false }
{
    flag_argument(
        alloc,
        "files-alone",
        "Adds no class of the library to the class files",
    )
}

/// The outcome that is to be kept, which has to be there.
pub(crate) fn required_goal_argument<'a>(alloc: Global) -> Arg<'a>
    ensures rule { rule_of result ≡ required_goal_option }
    ensures local { result.global ≡ false }
{
    goal_argument(alloc, OUTCOME_HELP).required(true)
}

/// What is to be found, or to be kept.
pub(crate) fn goal_argument<'a>(alloc: Global, help: &'a str) -> Arg<'a>
    ensures rule { rule_of result ≡ goal_option }
    ensures local { result.global ≡ false }
{
    value_argument(alloc, "for", "OUTCOME", help)
}

/// The class files, one or more.
pub(crate) fn files_argument<'a>(alloc: Global, help: &'a str) -> Arg<'a>
    ensures rule { rule_of result ≡ class_files }
    ensures local { result.global ≡ false }
{
    Arg::new(alloc, "files")
        .value_name("FILE")
        .required(true)
        .num_args(1..)
        .action(ArgAction::Append)
        .help(help)
}

/// An option that takes the path of a file.
pub(crate) fn path_argument<'a>(alloc: Global, name: &'a str, help: &'a str) -> Arg<'a>
    ensures rule { rule_of result ≡ path_option name.now }
    ensures local { result.global ≡ false }
{
    value_argument(alloc, name, "FILE", help)
}

/// An option that takes any text, by the name that help has for what the text is.
pub(crate) fn value_argument<'a>(
    alloc: Global,
    name: &'a str,
    value: &'a str,
    help: &'a str,
) -> Arg<'a>
    ensures rule { rule_of result ≡ path_option name.now }
    ensures local { result.global ≡ false }
{
    Arg::new(alloc, name)
        .long(name)
        .value_name(value)
        .action(ArgAction::Set)
        .help(help)
}

/// An option that takes a number, within these two.
pub(crate) fn number_argument<'a>(
    alloc: Global,
    name: &'a str,
    least: u64,
    most: u64,
    help: &'a str,
) -> Arg<'a>
    ensures rule { rule_of result ≡ number_option name.now least most }
    ensures local { result.global ≡ false }
{
    Arg::new(alloc, name)
        .long(name)
        .value_name("NUMBER")
        .action(ArgAction::Set)
        .value_parser(ValueParser::unsigned(least, most))
        .help(help)
}

/// An option that is there or not.
pub(crate) fn flag_argument<'a>(alloc: Global, name: &'a str, help: &'a str) -> Arg<'a>
    ensures rule { rule_of result ≡ flag name.now }
    ensures local { result.global ≡ false }
{
    Arg::new(alloc, name)
        .long(name)
        .action(ArgAction::SetTrue)
        .help(help)
}
