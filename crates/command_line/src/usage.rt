//! Why words are no command.

ghost use Rattle.std.specs.Prelude.{◌≡◌};
ghost use Rattle.command_line.specs.CommandLine.{Asks, usage_of};
ghost use Rattle.command_line.specs.declared.usage.Usage.TheVariants.{OutOfMemory};

use clap::error::ErrorKind;
use std::alloc::{AllocError, AllocFailed, Global};
use std::fmt;
use std::num::ParseIntError;

/// How the parser's texts end.
const MORE: &str = "For more information, try '--help'.";

/// How an outcome is asked for by its text.
const TEXT: &str = "--for text=<TEXT>";

/// What is told of a backslash that begins no escape of a text.
const NO_ESCAPE: &str = "begins none of \\n, \\\\, \\uXXXX";

/// Why there is no command.
#[derive(Drop)]
pub enum Usage {
    /// The words are no command. Its text is for the user.
    Parser(clap::Error),
    /// A number of an option has a sign, or an outcome is none; or an option doesn't go with the others, or not
    /// without one that is missing. This is the text for the user.
    Number(String),
    /// The words ask for help or for the version, and this is it.
    Asked(clap::Error),
    OutOfMemory,
}

impl Usage {
    /// The fault that a text with a sign isn't a number of the option of this name, in the parser's words for every
    /// other text that is none. The parser takes a plus, and takes a minus for an option.
    pub(crate) fn no_number(alloc: Global, name: &str, text: &str) -> Usage
        ensures { Asks result → ⊥ }
    {
        Usage::told(format!(in alloc;
            "error: invalid value '{text}' for '--{name} <NUMBER>': invalid digit found in string\n\n{MORE}\n"
        ))
    }

    /// The fault that a number isn't within the range of the option of this name, in the parser's words.
    pub(crate) fn not_within(alloc: Global, name: &str, number: u64, least: u32, most: u32) -> Usage
        ensures { Asks result → ⊥ }
    {
        Usage::told(format!(in alloc;
            "error: invalid value '{number}' for '--{name} <NUMBER>': {number} is not in {least}..={most}\n\n{MORE}\n"
        ))
    }

    /// The fault that a text isn't a number of the option of this name, in the parser's words.
    pub(crate) fn not_parsed(alloc: Global, name: &str, text: &str, error: &ParseIntError) -> Usage
        ensures { Asks result → ⊥ }
    {
        Usage::told(format!(in alloc;
            "error: invalid value '{text}' for '--{name} <NUMBER>': {error}\n\n{MORE}\n"
        ))
    }

    /// The fault that an option doesn't go with another one, in the parser's words.
    pub(crate) fn not_together(alloc: Global, one: &str, other: &str) -> Usage
        ensures { Asks result → ⊥ }
    {
        Usage::told(format!(in alloc;
            "error: the argument '{one}' cannot be used with '{other}'\n\n{MORE}\n"
        ))
    }

    /// The fault that there is no such policy, in the parser's words for a value that isn't one of a few.
    pub(crate) fn no_policy(alloc: Global, text: &str) -> Usage
        ensures { Asks result → ⊥ }
    {
        Usage::told(format!(in alloc;
            "error: invalid value '{text}' for '--policy <POLICY>'\n  [possible values: mixed, random, rotation]\n\n{MORE}\n"
        ))
    }

    /// The fault that a file is to be written, by an option of this name, which is read, too, in the parser's words for
    /// a value that it refuses.
    pub fn read_too(alloc: Global, option: &str, path: &str) -> Usage
        ensures { Asks result → ⊥ }
    {
        Usage::told(format!(in alloc;
            "error: invalid value '{path}' for '--{option} <FILE>': this file is read, too\n\n{MORE}\n"
        ))
    }

    /// The fault that a file of the folder that is written to is read, too, in the parser's words for a value that it
    /// refuses.
    pub fn read_in(alloc: Global, folder: &str, path: &str) -> Usage
        ensures { Asks result → ⊥ }
    {
        Usage::told(format!(in alloc;
            "error: invalid value '{folder}' for '--record <FILE>': '{path}' in this folder is read, too\n\n{MORE}\n"
        ))
    }

    /// The fault that a search can find nothing of this name, in the parser's words for a value that isn't one of a
    /// few.
    pub(crate) fn no_goal(alloc: Global, text: &str, possible: &str) -> Usage
        ensures { Asks result → ⊥ }
    {
        Usage::told(format!(in alloc;
            "error: invalid value '{text}' for '--for <OUTCOME>'\n  [possible values: {possible}]\n\n{MORE}\n"
        ))
    }

    /// The fault that only a search over all schedules finds this, in the parser's words for a value that it refuses.
    pub(crate) fn of_searches(alloc: Global, text: &str) -> Usage
        ensures { Asks result → ⊥ }
    {
        Usage::told(format!(in alloc;
            "error: invalid value '{text}' for '--for <OUTCOME>': it is for 'jvm search' alone\n\n{MORE}\n"
        ))
    }

    /// The fault that a text is none of the ints that may be printed, in the parser's words for a value that it
    /// refuses.
    pub(crate) fn no_int(alloc: Global, text: &str) -> Usage
        ensures { Asks result → ⊥ }
    {
        Usage::told(format!(in alloc;
            "error: invalid value '{text}' for '--for output=<NUMBERS>': not an int in its shortest decimal form\n\n{MORE}\n"
        ))
    }

    /// The fault that the backslash at a place of a text, counted in characters from 1, begins no escape, in the
    /// parser's words for a value that it refuses.
    pub(crate) fn no_escape(alloc: Global, text: &str, place: usize) -> Usage
        ensures { Asks result → ⊥ }
    {
        Usage::told(format!(in alloc;
            "error: invalid value '{text}' for '{TEXT}': the backslash at character {place} {NO_ESCAPE}\n\n{MORE}\n"
        ))
    }

    /// The fault that an option is missing, in the parser's words for what has to be there.
    pub(crate) fn not_provided(alloc: Global, option: &str) -> Usage
        ensures { Asks result → ⊥ }
    {
        Usage::told(format!(in alloc;
            "error: the following required arguments were not provided:\n  {option}\n\n{MORE}\n"
        ))
    }

    /// The fault that a word is one too many, in the parser's words.
    pub(crate) fn not_expected(alloc: Global, word: &str) -> Usage
        ensures { Asks result → ⊥ }
    {
        Usage::told(format!(in alloc; "error: unexpected argument '{word}' found\n\n{MORE}\n"))
    }

    /// That a text names no seeds, in the parser's words for a value that it refuses.
    pub(crate) fn no_seeds(alloc: Global, text: &str) -> Usage
        ensures { Asks result → ⊥ }
    {
        Usage::told(format!(in alloc;
            "error: invalid value '{text}' for '--seeds <A..B>': not two seeds from 0 to 18446744073709551615 with two dots between them\n\n{MORE}\n"
        ))
    }

    /// That no seed is in a range, in the parser's words for a value that it refuses.
    pub(crate) fn empty_seeds(alloc: Global, text: &str) -> Usage
        ensures { Asks result → ⊥ }
    {
        Usage::told(format!(in alloc;
            "error: invalid value '{text}' for '--seeds <A..B>': there is no seed in this range\n\n{MORE}\n"
        ))
    }

    /// What a text says, where there was memory for it.
    fn told(text: Result<String, AllocError>) -> Usage
        ensures { Asks result → ⊥ }
    {
        match text {
            Ok(message) => Usage::Number(message),
            Err(AllocError) => Usage::OutOfMemory,
        }
    }
}

impl fmt::Display for Usage {
    fn fmt<W: fmt::Write>(&self, f: &mut fmt::Formatter<W>) -> fmt::Result {
        match self {
            Usage::Parser(error) | Usage::Asked(error) => error.fmt(f),
            Usage::Number(text) => f.write_str(text.as_str()),
            Usage::OutOfMemory => f.write_str("run refused Memory\n"),
        }
    }
}

impl From<clap::Error> for Usage {
    ghost from_gives = { λ error usage. usage ≡ usage_of error };

    fn from(error: clap::Error) -> Usage {
        match error.kind() {
            ErrorKind::OutOfMemory => Usage::OutOfMemory,
            ErrorKind::DisplayHelp => Usage::Asked(error),
            ErrorKind::DisplayVersion => Usage::Asked(error),
            _ => Usage::Parser(error),
        }
    }
}

impl From<AllocError> for Usage {
    ghost from_gives = { λ _ usage. usage ≡ OutOfMemory };

    fn from(_error: AllocError) -> Usage {
        Usage::OutOfMemory
    }
}

impl<T: Drop> From<AllocFailed<T>> for Usage {
    ghost from_gives = { λ _ usage. usage ≡ OutOfMemory };

    fn from(_error: AllocFailed<T>) -> Usage {
        Usage::OutOfMemory
    }
}
