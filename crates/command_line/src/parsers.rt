//! The parsers of the command line.

ghost use Rattle.std.specs.Prelude.{◌≡◌, false, IfOk, IfErr};
ghost use Rattle.clap.specs.Words.{App, Rule, app_of, kind_of, new_app, rule_of, with_rule, with_subcommand};
ghost use Rattle.clap.specs.declared.error.kind.ErrorKind.TheVariants.{OutOfMemory as no_memory};
ghost use Rattle.command_line.specs.Parsers.{IsParser, class_files, jvm, jvm_disasm, jvm_races, jvm_replay, jvm_run, jvm_schedule, jvm_search, jvm_shrink, jvm_trace, jvm_verify};
ghost use Rattle.command_line.specs.Parsers as spec;

use crate::arguments::{
    alone_argument, any_files_argument, files_argument, flag_argument, goal_argument,
    main_argument, path_argument, record_argument, required_goal_argument, schedule_argument,
};
use crate::help::{
    ABOUT, AFTER, DISASM_PAGE, FILES_HELP, LISTED_HELP, RACES_PAGE, RECORD_HELP, REPLAY_PAGE,
    RUN_PAGE, RUN_RECORD_HELP, SCHEDULE_HELP, SCHEDULE_PAGE, SEARCH_GOAL_HELP, SEARCH_PAGE,
    SHRINK_PAGE, SWEEP_GOAL_HELP, TRACE_PAGE, VERIFY_PAGE, VERSION,
};
use crate::numbers::{
    AS_VERSION, BUDGET, CELLS, FRAMES, FROM, MEMORY, MONITORS, OBJECTS, ONLY, QUANTUM, SECONDS,
    STATES, THREADS, TO, WHOLE_BUDGET, WORKERS,
};
use crate::run_arguments::{policy_argument, seed_argument};
use crate::sweep_arguments::{RACES, seeds_argument};
use clap::Arg;
use std::alloc::{AllocError, Global};

/// The parser of the command line.
pub(crate) fn program<'a>(alloc: Global) -> Result<clap::Command<'a>, clap::Error>
    ensures app { IfOk result (λ program. app_of program ≡ jvm) }
    ensures err { IfErr result (λ error. kind_of error ≡ no_memory) }
{
    let program = clap::Command::new(alloc, "jvm")
        .about(ABOUT)
        .version(VERSION)
        .after_help(AFTER)
        .subcommand_required(true);
    Ok(with_parsers(alloc, program)?)
}

/// The command with all subcommands.
fn with_parsers<'a>(
    alloc: Global,
    program: clap::Command<'a>,
) -> Result<clap::Command<'a>, AllocError>
    ensures { IfOk result (λ whole. app_of whole ≡ spec.with_subcommands (app_of program.entry)) }
{
    let program = with_parser(program, run_parser(alloc))?;
    let program = with_parser(program, replay_parser(alloc))?;
    let program = with_parser(program, trace_parser(alloc))?;
    let program = with_parser(program, races_parser(alloc))?;
    let program = with_parser(program, search_parser(alloc))?;
    let program = with_parser(program, shrink_parser(alloc))?;
    let program = with_parser(program, verify_parser(alloc))?;
    let program = with_parser(program, disasm_parser(alloc))?;
    with_parser(program, schedule_parser(alloc))
}

/// The command with a subcommand, if there was memory for its parser.
fn with_parser<'a>(
    command: clap::Command<'a>,
    parser: Result<clap::Command<'a>, AllocError>,
) -> Result<clap::Command<'a>, AllocError>
    ensures { (app : App) → IfOk parser.entry (λ p. IsParser p app)
        → IfOk result (λ whole. app_of whole ≡ with_subcommand (app_of command.entry) app.top) }
{
    match parser {
        Ok(parser) => command.subcommand(parser),
        Err(error) => Err(error),
    }
}

/// A subcommand by its name, with what it does in a line, and the page that its help ends with.
fn titled<'a>(alloc: Global, name: &'a str, about: &'a str, page: &'a str) -> clap::Command<'a>
    ensures { IsParser result (new_app name.now) }
{
    clap::Command::new(alloc, name)
        .about(about)
        .after_help(page)
}

fn run_parser<'a>(alloc: Global) -> Result<clap::Command<'a>, AllocError>
    ensures { IfOk result (λ run. IsParser run jvm_run) }
{
    let run = Ok(titled(
        alloc,
        "run",
        "Runs class files, and may record the schedule",
        RUN_PAGE,
    ));
    let run = with_run_options(alloc, run);
    let run = with_sweep_options(alloc, run);
    let run = with_record(alloc, run, RUN_RECORD_HELP);
    let run = with_follow(alloc, run);
    let run = with_races(alloc, run);
    with_files(alloc, run, FILES_HELP)
}

fn replay_parser<'a>(alloc: Global) -> Result<clap::Command<'a>, AllocError>
    ensures { IfOk result (λ replay. IsParser replay jvm_replay) }
{
    let replay = Ok(titled(
        alloc,
        "replay",
        "Runs class files under the schedule of a file, and may go on behind it",
        REPLAY_PAGE,
    ));
    let replay = with_schedule(alloc, replay);
    let replay = with_then_run(alloc, replay);
    let replay = with_follow(alloc, replay);
    with_files(alloc, replay, FILES_HELP)
}

fn trace_parser<'a>(alloc: Global) -> Result<clap::Command<'a>, AllocError>
    ensures { IfOk result (λ trace. IsParser trace jvm_trace) }
{
    let trace = Ok(titled(
        alloc,
        "trace",
        "Runs class files under the schedule of a file, and tells the run event by event",
        TRACE_PAGE,
    ));
    let trace = with_schedule(alloc, trace);
    let trace = with_window(alloc, trace);
    let trace = with_form(alloc, trace);
    let trace = with_program(alloc, trace);
    with_files(alloc, trace, FILES_HELP)
}

fn races_parser<'a>(alloc: Global) -> Result<clap::Command<'a>, AllocError>
    ensures { IfOk result (λ races. IsParser races jvm_races) }
{
    let races = Ok(titled(
        alloc,
        "races",
        "Runs class files under the schedule of a file, and tells the data races of the run",
        RACES_PAGE,
    ));
    let races = with_schedule(alloc, races);
    let races = with_program(alloc, races);
    with_files(alloc, races, FILES_HELP)
}

fn search_parser<'a>(alloc: Global) -> Result<clap::Command<'a>, AllocError>
    ensures { IfOk result (λ search. IsParser search jvm_search) }
{
    let search = Ok(titled(
        alloc,
        "search",
        "Searches all schedules of class files for what can come of them",
        SEARCH_PAGE,
    ));
    let search = with_search_options(alloc, search);
    let search = with_program(alloc, search);
    with_files(alloc, search, FILES_HELP)
}

fn shrink_parser<'a>(alloc: Global) -> Result<clap::Command<'a>, AllocError>
    ensures { IfOk result (λ shrink. IsParser shrink jvm_shrink) }
{
    let shrink = Ok(titled(
        alloc,
        "shrink",
        "Looks for a schedule with fewer switches that has the same outcome",
        SHRINK_PAGE,
    ));
    let shrink = with_shrink_options(alloc, shrink);
    let shrink = with_program(alloc, shrink);
    with_files(alloc, shrink, FILES_HELP)
}

fn verify_parser<'a>(alloc: Global) -> Result<clap::Command<'a>, AllocError>
    ensures { IfOk result (λ verify. IsParser verify jvm_verify) }
{
    let verify = Ok(titled(
        alloc,
        "verify",
        "Links and verifies class files",
        VERIFY_PAGE,
    ));
    let verify = with_argument(
        verify,
        flag_argument(alloc, "library", "No class has to have a main method"),
    );
    let verify = with_argument(verify, main_argument(alloc));
    let verify = with_argument(verify, alone_argument(alloc));
    with_files(alloc, verify, FILES_HELP)
}

fn disasm_parser<'a>(alloc: Global) -> Result<clap::Command<'a>, AllocError>
    ensures { IfOk result (λ disasm. IsParser disasm jvm_disasm) }
{
    let disasm = Ok(titled(alloc, "disasm", "Lists class files", DISASM_PAGE));
    let disasm = with_argument(
        disasm,
        flag_argument(
            alloc,
            "names",
            "Adds names and line numbers, and tells instructions that are left out",
        ),
    );
    with_files(alloc, disasm, LISTED_HELP)
}

fn schedule_parser<'a>(alloc: Global) -> Result<clap::Command<'a>, AllocError>
    ensures { IfOk result (λ schedule. IsParser schedule jvm_schedule) }
{
    let schedule = Ok(titled(
        alloc,
        "schedule",
        "Prints a schedule file as text, or makes one of a text",
        SCHEDULE_PAGE,
    ));
    let schedule = with_made_file(alloc, schedule);
    let schedule = with_places(alloc, schedule);
    with_files(alloc, schedule, SCHEDULE_HELP)
}

/// The command with an argument, if there was memory for the command.
fn with_argument<'a>(
    command: Result<clap::Command<'a>, AllocError>,
    argument: Arg<'a>,
) -> Result<clap::Command<'a>, AllocError>
    ensures { (app : App) (rule : Rule) → IfOk command.entry (λ made. IsParser made app)
        → rule_of argument.entry ≡ rule → argument.entry.global ≡ false
        → IfOk result (λ whole. IsParser whole (with_rule app rule)) }
{
    match command {
        Ok(command) => command.arg(argument),
        Err(error) => Err(error),
    }
}

/// The command with the options by which threads get turns, and how long that goes on.
fn with_run_options<'a>(
    alloc: Global,
    command: Result<clap::Command<'a>, AllocError>,
) -> Result<clap::Command<'a>, AllocError>
    ensures { (app : App) → IfOk command.entry (λ made. IsParser made app)
        → IfOk result (λ whole. IsParser whole (spec.with_run_options app)) }
{
    let command = with_argument(command, WORKERS.argument(alloc));
    let command = with_argument(command, BUDGET.argument(alloc));
    let command = with_argument(command, QUANTUM.argument(alloc));
    let command = with_argument(command, seed_argument(alloc));
    let command = with_argument(command, policy_argument(alloc));
    with_argument(command, SECONDS.argument(alloc))
}

/// The command with the options of a sweep over seeds.
fn with_sweep_options<'a>(
    alloc: Global,
    command: Result<clap::Command<'a>, AllocError>,
) -> Result<clap::Command<'a>, AllocError>
    ensures { (app : App) → IfOk command.entry (λ made. IsParser made app)
        → IfOk result (λ whole. IsParser whole (spec.with_sweep_options app)) }
{
    let command = with_argument(command, seeds_argument(alloc));
    with_argument(command, goal_argument(alloc, SWEEP_GOAL_HELP))
}

/// The command with a schedule, and the flag that takes it for any class files.
fn with_schedule<'a>(
    alloc: Global,
    command: Result<clap::Command<'a>, AllocError>,
) -> Result<clap::Command<'a>, AllocError>
    ensures { (app : App) → IfOk command.entry (λ made. IsParser made app)
        → IfOk result (λ whole. IsParser whole (spec.with_schedule app)) }
{
    let command = with_argument(command, schedule_argument(alloc));
    with_argument(command, any_files_argument(alloc))
}

/// The command with the options of a run that goes on behind its schedule.
fn with_then_run<'a>(
    alloc: Global,
    command: Result<clap::Command<'a>, AllocError>,
) -> Result<clap::Command<'a>, AllocError>
    ensures { (app : App) → IfOk command.entry (λ made. IsParser made app)
        → IfOk result (λ whole. IsParser whole (spec.with_then_run app)) }
{
    let command = with_argument(
        command,
        flag_argument(
            alloc,
            "then-run",
            "Goes on where the schedule ends: the threads take turns",
        ),
    );
    let command = with_argument(command, WHOLE_BUDGET.argument(alloc));
    with_record(alloc, command, RECORD_HELP)
}

/// The command with the options that say which events are told.
fn with_window<'a>(
    alloc: Global,
    command: Result<clap::Command<'a>, AllocError>,
) -> Result<clap::Command<'a>, AllocError>
    ensures { (app : App) → IfOk command.entry (λ made. IsParser made app)
        → IfOk result (λ whole. IsParser whole (spec.with_window app)) }
{
    let command = with_argument(command, FROM.argument(alloc));
    let command = with_argument(command, TO.argument(alloc));
    with_argument(command, ONLY.list_argument(alloc))
}

/// The command with the options that say in which form events are told.
fn with_form<'a>(
    alloc: Global,
    command: Result<clap::Command<'a>, AllocError>,
) -> Result<clap::Command<'a>, AllocError>
    ensures { (app : App) → IfOk command.entry (λ made. IsParser made app)
        → IfOk result (λ whole. IsParser whole (spec.with_form app)) }
{
    let command = with_argument(
        command,
        flag_argument(alloc, "columns", "Gives each thread a column of its own"),
    );
    let command = with_argument(
        command,
        flag_argument(alloc, "json", "Tells each event as an object of JSON"),
    );
    let command = with_argument(
        command,
        flag_argument(
            alloc,
            "summary",
            "Tells a run of local instructions in one line",
        ),
    );
    with_argument(
        command,
        path_argument(
            alloc,
            "html",
            "The file that a page of the run is written to, in place of lines",
        ),
    )
}

/// The command with the options of a search.
fn with_search_options<'a>(
    alloc: Global,
    command: Result<clap::Command<'a>, AllocError>,
) -> Result<clap::Command<'a>, AllocError>
    ensures { (app : App) → IfOk command.entry (λ made. IsParser made app)
        → IfOk result (λ whole. IsParser whole (spec.with_search_options app)) }
{
    let command = with_argument(command, goal_argument(alloc, SEARCH_GOAL_HELP));
    let command = with_argument(command, STATES.argument(alloc));
    let command = with_argument(command, MEMORY.argument(alloc));
    let command = with_argument(command, SECONDS.argument(alloc));
    with_record(alloc, command, RECORD_HELP)
}

/// The command with the options by which a schedule is shrunk.
fn with_shrink_options<'a>(
    alloc: Global,
    command: Result<clap::Command<'a>, AllocError>,
) -> Result<clap::Command<'a>, AllocError>
    ensures { (app : App) → IfOk command.entry (λ made. IsParser made app)
        → IfOk result (λ whole. IsParser whole (spec.with_shrink_options app)) }
{
    let command = with_argument(command, required_goal_argument(alloc));
    let command = with_schedule(alloc, command);
    let command = with_argument(command, WHOLE_BUDGET.argument(alloc));
    with_record(alloc, command, RECORD_HELP)
}

/// The command with the options by which a schedule file is made of a text.
fn with_made_file<'a>(
    alloc: Global,
    command: Result<clap::Command<'a>, AllocError>,
) -> Result<clap::Command<'a>, AllocError>
    ensures { (app : App) → IfOk command.entry (λ made. IsParser made app)
        → IfOk result (λ whole. IsParser whole (spec.with_made_file app)) }
{
    let command = with_argument(
        command,
        flag_argument(
            alloc,
            "write",
            "Makes the schedule file of the text on standard input",
        ),
    );
    with_argument(command, AS_VERSION.argument(alloc))
}

/// The command with the options of a text with places.
fn with_places<'a>(
    alloc: Global,
    command: Result<clap::Command<'a>, AllocError>,
) -> Result<clap::Command<'a>, AllocError>
    ensures { (app : App) → IfOk command.entry (λ made. IsParser made app)
        → IfOk result (λ whole. IsParser whole (spec.with_places app)) }
{
    let command = with_argument(
        command,
        flag_argument(
            alloc,
            "places",
            "Prints a schedule of class files as a text with places",
        ),
    );
    let command = with_argument(
        command,
        path_argument(
            alloc,
            "schedule",
            "The schedule of --places: a file, or its text, or '0*22 1'",
        ),
    );
    let command = with_argument(command, any_files_argument(alloc));
    let command = with_argument(command, main_argument(alloc));
    with_argument(command, alone_argument(alloc))
}

/// The command with the options of the limits.
fn with_limits<'a>(
    alloc: Global,
    command: Result<clap::Command<'a>, AllocError>,
) -> Result<clap::Command<'a>, AllocError>
    ensures { (app : App) → IfOk command.entry (λ made. IsParser made app)
        → IfOk result (λ whole. IsParser whole (spec.with_limits app)) }
{
    let command = with_argument(command, OBJECTS.argument(alloc));
    let command = with_argument(command, CELLS.argument(alloc));
    let command = with_argument(command, MONITORS.argument(alloc));
    let command = with_argument(command, THREADS.argument(alloc));
    with_argument(command, FRAMES.argument(alloc))
}

/// The command with the options by which schedules are recorded.
fn with_record<'a>(
    alloc: Global,
    command: Result<clap::Command<'a>, AllocError>,
    help: &'a str,
) -> Result<clap::Command<'a>, AllocError>
    ensures { (app : App) → IfOk command.entry (λ made. IsParser made app)
        → IfOk result (λ whole. IsParser whole (spec.with_record app)) }
{
    let command = with_argument(command, record_argument(alloc, help));
    with_argument(command, AS_VERSION.argument(alloc))
}

/// The command with the options of the limits, with the one that names the class whose main is run, and with the flag
/// that leaves the library out.
fn with_program<'a>(
    alloc: Global,
    command: Result<clap::Command<'a>, AllocError>,
) -> Result<clap::Command<'a>, AllocError>
    ensures { (app : App) → IfOk command.entry (λ made. IsParser made app)
        → IfOk result (λ whole. IsParser whole (spec.with_program app)) }
{
    let command = with_limits(alloc, command);
    let command = with_argument(command, main_argument(alloc));
    with_argument(command, alone_argument(alloc))
}

/// The same command with the flag that has lines printed as soon as they can be.
fn with_follow<'a>(
    alloc: Global,
    command: Result<clap::Command<'a>, AllocError>,
) -> Result<clap::Command<'a>, AllocError>
    ensures { (app : App) → IfOk command.entry (λ made. IsParser made app)
        → IfOk result (λ whole. IsParser whole (spec.with_follow app)) }
{
    let command = with_program(alloc, command);
    with_argument(
        command,
        flag_argument(
            alloc,
            "follow",
            "Prints each line as soon as the run prints it, not behind the run",
        ),
    )
}

/// The same command with the flag that has the races of the run told.
fn with_races<'a>(
    alloc: Global,
    command: Result<clap::Command<'a>, AllocError>,
) -> Result<clap::Command<'a>, AllocError>
    ensures { (app : App) → IfOk command.entry (λ made. IsParser made app)
        → IfOk result (λ whole. IsParser whole (spec.with_races app)) }
{
    with_argument(
        command,
        flag_argument(
            alloc,
            RACES,
            "Tells each data race of the run on a line, before the report",
        ),
    )
}

/// The command with the flags that say how much standard error tells, and with files behind all options.
fn with_files<'a>(
    alloc: Global,
    command: Result<clap::Command<'a>, AllocError>,
    help: &'a str,
) -> Result<clap::Command<'a>, AllocError>
    ensures { (app : App) → IfOk command.entry (λ made. IsParser made app)
        → IfOk result (λ whole. IsParser whole (spec.with_files app class_files)) }
{
    let command = with_argument(
        command,
        flag_argument(
            alloc,
            "explain",
            "Tells what threads wait for, however long that takes",
        ),
    );
    let command = with_argument(
        command,
        flag_argument(
            alloc,
            "quiet",
            "Adds no words on why files are refused or what threads wait for",
        ),
    );
    with_argument(command, files_argument(alloc, help))
}
