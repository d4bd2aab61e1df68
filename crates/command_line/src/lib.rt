//! The command line of the program `jvm`: which command its words spell, with which options.
//!
//! # Proved
//!
//! - `command`: the command is the one that the words spell, by the definitions of the parser's crate and with numbers
//!   of digits alone, each in its range (`spelled`); a usage fault is answered only where the parser doesn't take the
//!   words or they spell no command, memory aside; and help or the version is told only where it is what the parser may
//!   answer to the words (`refused`).
//! - In both clauses: what `search --for` seeks is what its word names (`IsSearchGoalWord`). The words of a kind of
//!   states are `race`, `uncaught`, `deadlock`, `endless` and `any`; of `run --seeds` and `shrink` there is no command
//!   with `race`, `endless` or `any` (`IsGoalWord`). Behind `output=` stand ints, each as a report prints it; there is
//!   no command where an item is none. Behind `text=` stands a text of UTF-16 units, in characters and in the escapes
//!   `\n`, `\\` and `\uXXXX` (`units_of`); there is no command where another backslash stands there.
//! - In both clauses: `schedule` has one file, and a version beside `--write` alone (`AreScheduleValues`,
//!   `IsMadeVersion`); or with `--places` class files, a schedule of them, and neither `--write` nor a version
//!   (`ArePlacesValues`). Of all others `--as-version` stands beside `--record` alone (`IsRecordedVersion`).
//! - In both clauses: `--follow` is there where the words have it, and no run of a sweep has it (`IsFollow`). So is
//!   `--races` of a run, which has no `--follow` beside it (`IsRaceFlag`).
//! - In both clauses: the file that `--record` names is none that the command reads, by the words alone (`IsApart`);
//!   there is no command where it is one.
//! - The limits are the options or the defaults (`LimitOptions::limits`); `LimitOptions::allow` tells whether none is
//!   asked for that is another one than these limits; workers, budget and quantum are the options or the defaults, and
//!   the policy is the one that is named, `rotation` beside a quantum, and else `mixed` (`RunOptions`).
//! - In both clauses: workers have neither a seed nor a policy, a policy that goes by a seed has no quantum, and a
//!   rotation has no seed (`GoTogether`); there is no command where options don't go together. Beside `--seeds` each is
//!   looked at by itself (`UnlessSweep`): workers go with any policy, and there is no seed and no quantum
//!   (`IsSweepOf`).
//!
//! # Not proved
//!
//! - Shown by cases too: command lines as a user types them.
//! - Shown by cases alone: the text of a usage fault, of help and of the version.
#![tactic(auto)]

mod arguments;
mod escaped_texts;
mod goal;
mod help;
mod numbers;
mod options;
mod parse;
mod parsers;
mod paths;
mod program_options;
mod run_arguments;
mod run_options;
mod schedule_arguments;
mod sweep_arguments;
mod sweep_options;
mod trace_arguments;
mod usage;
mod values;

pub use options::{
    Command, Disasm, Goal, LimitOptions, Places, Races, Replay, Run, Schedule, Search, SearchGoal,
    Shrink, ThenRun, Trace, TraceForm, Verify,
};
pub use parse::command;
pub use paths::{is_absolute, is_same_path, steps_of};
pub use run_options::{PolicyName, RunOptions};
pub use sweep_options::{SeedRange, SweepOptions, SweepPolicy};
pub use usage::Usage;
