//! What the program is asked to do.

ghost use Rattle.std.specs.Prelude.{◌≡◌, ◌≤◌, ◌↔◌, IsTrue, unwrap_or};
ghost use Rattle.model.specs.BuiltInNumbers.{most_threads};

use crate::run_options::RunOptions;
use crate::sweep_options::SweepOptions;
use model::Limits;

/// A subcommand with the values of its options.
#[derive(Drop)]
pub enum Command {
    Run(Run),
    Replay(Replay),
    Trace(Trace),
    Races(Races),
    Search(Search),
    Shrink(Shrink),
    Verify(Verify),
    Disasm(Disasm),
    Schedule(Schedule),
    Places(Places),
}

/// The usual budget of a run of a sweep, of one that goes on behind a schedule, of a try of `shrink`, and of places, in
/// events.
pub(crate) const USUAL_BUDGET: u32 = 10_000_000;

/// How many states a search may meet, unless another number is asked for.
const USUAL_STATES: u32 = 10_000_000;

/// How many bytes the states that a search has met may take, unless another number is asked for.
const USUAL_MEMORY: u32 = 1_000_000_000;

/// `jvm run`: class files are run, by one worker or by several, and what comes of it is reported.
#[derive(Drop)]
pub struct Run {
    pub options: RunOptions,
    /// How many seconds the run may take, or the runs together, and `None` where it takes as many as it takes.
    pub seconds: Option<u32>,
    /// A run for each of some seeds, where these are asked for.
    pub sweep: Option<SweepOptions>,
    /// The path of the file that the schedule of the run is written to, if any; of a sweep that of the folder for
    /// the schedules of its outcomes.
    pub record: Option<String>,
    /// The version that a schedule is written in at most, and `None` for any.
    pub as_version: Option<u32>,
    pub limits: LimitOptions,
    /// The name of the class whose `main` is run, with dots or slashes, if it is given.
    pub main: Option<String>,
    /// The paths of the class files, and of folders of them.
    pub files: Vec<String>,
    /// Whether a refusal is explained, and what threads are about, whatever that costs.
    pub explain: bool,
    /// Whether standard error tells no more than why there is no report.
    pub quiet: bool,
    /// Whether no class is added from the library.
    pub files_alone: bool,
    /// Whether each line is printed as soon as the run prints it, and not behind the run.
    pub follow: bool,
    /// Whether the data races of the run are told before its report.
    pub races: bool,
}

/// `jvm replay`: class files are run under a schedule, and what comes of it is reported.
#[derive(Drop)]
pub struct Replay {
    /// The path of the schedule file, or the schedule itself.
    pub schedule: String,
    /// Whether any class files will do, whatever the schedule was recorded over.
    pub any_files: bool,
    /// How the run goes on where the schedule ends, if it does.
    pub then_run: Option<ThenRun>,
    /// Behind how many events a place of the schedule gives up, and `None` for the usual number.
    pub budget: Option<u32>,
    pub limits: LimitOptions,
    /// The name of the class whose `main` is run, with dots or slashes, if it is given.
    pub main: Option<String>,
    /// The paths of the class files, and of folders of them.
    pub files: Vec<String>,
    /// Whether a refusal is explained, and what threads are about, whatever that costs.
    pub explain: bool,
    /// Whether standard error tells no more than why there is no report.
    pub quiet: bool,
    /// Whether no class is added from the library.
    pub files_alone: bool,
    /// Whether each line is printed as soon as the run prints it, and not behind the run.
    pub follow: bool,
}

/// `jvm trace`: class files are run under a schedule, and the run is told event by event.
#[derive(Drop)]
pub struct Trace {
    /// The path of the schedule file, or the schedule itself.
    pub schedule: String,
    /// Whether any class files will do, whatever the schedule was recorded over.
    pub any_files: bool,
    /// The number of the first event that is told, and `None` for 0.
    pub from: Option<u32>,
    /// The number of the last event that is told, and `None` for that of the run.
    pub to: Option<u32>,
    /// The threads whose events are told, and `None` for all.
    pub only: Option<Vec<u32>>,
    pub form: TraceForm,
    /// The path of the file that a page of the run is written to, in place of the lines, if any.
    pub html: Option<String>,
    /// Whether a run of local instructions is told in one line.
    pub summary: bool,
    pub limits: LimitOptions,
    /// The name of the class whose `main` is run, with dots or slashes, if it is given.
    pub main: Option<String>,
    /// The paths of the class files, and of folders of them.
    pub files: Vec<String>,
    /// Whether a refusal is explained, and what threads are about, whatever that costs.
    pub explain: bool,
    /// Whether standard error tells no more than why there is no report.
    pub quiet: bool,
    /// Whether no class is added from the library.
    pub files_alone: bool,
}

/// `jvm races`: class files are run under a schedule, and the data races of the run are told.
#[derive(Drop)]
pub struct Races {
    /// The path of the schedule file, or the schedule itself.
    pub schedule: String,
    /// Whether any class files will do, whatever the schedule was recorded over.
    pub any_files: bool,
    pub limits: LimitOptions,
    /// The name of the class whose `main` is run, with dots or slashes, if it is given.
    pub main: Option<String>,
    /// The paths of the class files, and of folders of them.
    pub files: Vec<String>,
    /// Whether a refusal is explained, and what threads are about, whatever that costs.
    pub explain: bool,
    /// Whether standard error tells no more than why there is no report.
    pub quiet: bool,
    /// Whether no class is added from the library.
    pub files_alone: bool,
}

/// How a trace tells each event.
#[derive(Clone, Copy)]
pub enum TraceForm {
    /// In words.
    Plain,
    /// In words, with a column for each thread.
    Columns,
    /// An object of JSON.
    Json,
}

/// `jvm search`: all schedules of class files are searched, and what comes of it is reported.
#[derive(Drop)]
pub struct Search {
    /// What is to be found, and `None` where all outcomes and kinds are asked for.
    pub goal: Option<SearchGoal>,
    /// How many states there may be, and `None` for the usual number.
    pub states: Option<u32>,
    /// How many bytes the states that are kept may take, and `None` for the usual number.
    pub memory: Option<u32>,
    /// How many seconds the search may take, and `None` where it takes as many as it takes.
    pub seconds: Option<u32>,
    /// The path of the file that the schedule that is found is written to, if any.
    pub record: Option<String>,
    /// The version that the schedule is written in at most, and `None` for any.
    pub as_version: Option<u32>,
    pub limits: LimitOptions,
    /// The name of the class whose `main` is run, with dots or slashes, if it is given.
    pub main: Option<String>,
    /// The paths of the class files, and of folders of them.
    pub files: Vec<String>,
    /// Whether a refusal is explained.
    pub explain: bool,
    /// Whether standard error tells no more than why there is no output.
    pub quiet: bool,
    /// Whether no class is added from the library.
    pub files_alone: bool,
}

/// What a search is to find: a state that some run comes to, whether it ends or not; or an outcome of a run that ends.
#[derive(Drop)]
pub enum SearchGoal {
    /// The next events of two threads conflict: they access one variable that isn't volatile, and one writes it
    /// (JLS 17.4.1).
    Race,
    /// An exception that nothing caught has ended a thread.
    Uncaught,
    /// No thread may go on, and one hasn't ended; or threads wait in a circle for what they hold.
    Deadlock,
    /// No run from there ends: some thread may go on, whatever events follow.
    Endless,
    /// Any of these four.
    Any,
    /// The run printed these numbers, in this order, and no others.
    Output(Vec<i32>),
    /// The run printed these UTF-16 units, and no others.
    Text(Vec<u16>),
    /// Something else was printed than the file with this path has.
    Differs(String),
}

/// Which outcome of a run is to be found, or to be kept.
#[derive(Drop)]
pub enum Goal {
    /// No thread may go on, and one hasn't ended.
    Deadlock,
    /// An exception that nothing caught ended a thread.
    Uncaught,
    /// The run printed these numbers, in this order, and no others.
    Output(Vec<i32>),
    /// The run printed these UTF-16 units, and no others.
    Text(Vec<u16>),
    /// Something else was printed than the file with this path has.
    Differs(String),
}

impl Search {
    /// How many states there may be.
    pub fn states(&self) -> u32
        ensures { result ≡ unwrap_or self.now.states 10000000 }
    {
        self.states.unwrap_or(USUAL_STATES)
    }

    /// How many bytes the states that are kept may take.
    pub fn memory(&self) -> u32
        ensures { result ≡ unwrap_or self.now.memory 1000000000 }
    {
        self.memory.unwrap_or(USUAL_MEMORY)
    }
}

/// `jvm shrink`: a schedule with fewer switches is looked for behind which a run has the same outcome.
#[derive(Drop)]
pub struct Shrink {
    /// The outcome that is to be kept.
    pub goal: Goal,
    /// The path of the schedule file, or the schedule itself.
    pub schedule: String,
    /// Whether any class files will do, whatever the schedule was recorded over.
    pub any_files: bool,
    /// How many events each try may have, and `None` for the usual number.
    pub budget: Option<u32>,
    /// The path of the file that the schedule is written to, if any.
    pub record: Option<String>,
    /// The version that the schedule is written in at most, and `None` for any.
    pub as_version: Option<u32>,
    pub limits: LimitOptions,
    /// The name of the class whose `main` is run, with dots or slashes, if it is given.
    pub main: Option<String>,
    /// The paths of the class files, and of folders of them.
    pub files: Vec<String>,
    /// Whether a refusal is explained.
    pub explain: bool,
    /// Whether standard error tells no more than why there is no output.
    pub quiet: bool,
    /// Whether no class is added from the library.
    pub files_alone: bool,
}

impl Shrink {
    /// The budget of each try, in events.
    pub fn budget(&self) -> u32
        ensures { result ≡ unwrap_or self.now.budget 10000000 }
    {
        self.budget.unwrap_or(USUAL_BUDGET)
    }
}

impl Replay {
    /// The budget of places, in events.
    pub fn budget(&self) -> u32
        ensures { result ≡ unwrap_or self.now.budget 10000000 }
    {
        self.budget.unwrap_or(USUAL_BUDGET)
    }
}

/// How a run goes on where a schedule ends.
#[derive(Drop)]
pub struct ThenRun {
    /// How many events there may be, those of the schedule included, and `None` for the usual number.
    pub budget: Option<u32>,
    /// The path of the file that the whole schedule is written to, if any.
    pub record: Option<String>,
    /// The version that the whole schedule is written in at most, and `None` for any.
    pub as_version: Option<u32>,
}

impl ThenRun {
    /// The budget, in events.
    pub fn budget(&self) -> u32
        ensures { result ≡ unwrap_or self.now.budget 10000000 }
    {
        self.budget.unwrap_or(USUAL_BUDGET)
    }
}

/// `jvm verify`: class files are linked and verified, and nothing is run.
#[derive(Drop)]
pub struct Verify {
    /// The name of the class that has to have a `main`, with dots or slashes, if it is given.
    pub main: Option<String>,
    /// The paths of the class files, and of folders of them.
    pub files: Vec<String>,
    /// Whether no class has to have a `main`.
    pub library: bool,
    /// Whether a refusal is explained.
    pub explain: bool,
    /// Whether standard error tells no more than why there is no output.
    pub quiet: bool,
    /// Whether no class is added from the library.
    pub files_alone: bool,
}

/// `jvm disasm`: the listings of class files are written.
#[derive(Drop)]
pub struct Disasm {
    /// The paths of the class files, and of folders of them.
    pub files: Vec<String>,
    /// Whether names and line numbers stand behind the instructions.
    pub names: bool,
    /// Whether a refusal is explained.
    pub explain: bool,
    /// Whether standard error tells no more than why there is no output.
    pub quiet: bool,
}

/// `jvm schedule`: a schedule is printed as text, or with `--write` a schedule file is made of the text on standard
/// input.
#[derive(Drop)]
pub struct Schedule {
    /// The path of the schedule file.
    pub file: String,
    /// Whether the file is made.
    pub write: bool,
    /// The version that the file that is made is of at most, and `None` for any.
    pub as_version: Option<u32>,
    /// Whether a refusal is explained.
    pub explain: bool,
    /// Whether standard error tells no more than why there is no output.
    pub quiet: bool,
}

/// `jvm schedule --places`: a schedule of class files is printed as a text with places.
#[derive(Drop)]
pub struct Places {
    /// The path of the schedule file, or the schedule itself.
    pub schedule: String,
    /// Whether any class files will do, whatever the schedule was recorded over.
    pub any_files: bool,
    /// The name of the class whose `main` is run, with dots or slashes, if it is given.
    pub main: Option<String>,
    /// The paths of the class files, and of folders of them.
    pub files: Vec<String>,
    /// Whether a refusal is explained.
    pub explain: bool,
    /// Whether standard error tells no more than why there is no output.
    pub quiet: bool,
    /// Whether no class is added from the library.
    pub files_alone: bool,
}

/// The limits that are asked for, each in its range, and `None` for the usual one.
#[derive(Clone, Copy)]
pub struct LimitOptions {
    pub objects: Option<u32>,
    pub cells: Option<u32>,
    pub monitors: Option<u32>,
    pub threads: Option<u32>,
    pub frames: Option<u32>,
    pub ghost objects_fit: { unwrap_or objects 1000000 ≤ 4000000000 },
    pub ghost monitors_fit: { unwrap_or monitors 65536 ≤ 8388608 },
    pub ghost threads_fit: { (1 ≤ unwrap_or threads 256) × (unwrap_or threads 256 ≤ most_threads) },
    pub ghost frames_fit: { (1 ≤ unwrap_or frames 1024) × (unwrap_or frames 1024 ≤ 65535) },
}

impl LimitOptions {
    ghost use Rattle.command_line.specs.Choices.{AreAsked, AreChosen, IsAsked};

    /// The limits of the run.
    pub fn limits(&self) -> Limits
        ensures { AreChosen self.now result }
    {
        Limits {
            objects: self.objects.unwrap_or(1_000_000),
            cells: self.cells.unwrap_or(16_000_000),
            monitors: self.monitors.unwrap_or(65_536),
            threads: self.threads.unwrap_or(256),
            frames: self.frames.unwrap_or(1024),
        }
    }

    /// Whether no limit is asked for that is another one than this.
    pub fn allow(&self, limits: &Limits) -> bool
        ensures { IsTrue result ↔ AreAsked self.now limits.now }
    {
        LimitOptions::is_asked(self.objects, limits.objects)
            && LimitOptions::is_asked(self.cells, limits.cells)
            && LimitOptions::is_asked(self.monitors, limits.monitors)
            && LimitOptions::is_asked(self.threads, limits.threads)
            && LimitOptions::is_asked(self.frames, limits.frames)
    }

    /// Whether a number is the one that is asked for, if one is.
    fn is_asked(option: Option<u32>, limit: u32) -> bool
        ensures { IsTrue result ↔ IsAsked option limit }
    {
        match option {
            Some(number) => number == limit,
            None => true,
        }
    }
}
