//! The program `jvm`, which runs class files.
//!
//! # Proved
//!
//! - Where there is a complaint, the status is the one that is its (`complaint_status`); that it is safe.
//!
//! # Not proved
//!
//! - Shown by cases, which are all run by it: that the words and files of the system get to `engines`, and the texts to
//!   its output. Shown by running it alone: what a terminal shows while a run goes on, and what then stands beside the
//!   file of its record.
//! - What cases must print is derived from the rules, from javac, javap and java; but for the texts of usage faults and
//!   of help. No rule fixes them. They are the parser's own (`clap`), written down in its form and read through. So
//!   these cases show that such a text has changed, and not that it is right; that the words are no command, and the
//!   status, are by the rules.
//! - No case shows, and contracts alone say: that no class file at all is refused as `NoMain` (`link`); that a text
//!   that stands in several files counts once (`limits_of_linking`); look-ups and rules in sets that linking refuses
//!   before, as a field above an interface that is below another class than Object (`hierarchy`) and a cycle
//!   (`class_rules`); what is answered of a class that is not in the set (`described_types`) and of an instruction
//!   without a meaning (`instruction_types`), which linked files don't have; `found_field` and `found_method` of
//!   `resolution`, which nothing calls.
//! - Neither cases nor contracts say: which fault is named where code goes on behind a byte that begins no instruction.
//! - Runs by several workers are shown where their report doesn't depend on who comes first, and else only compared
//!   with their replays: 38 Java programs, each by 1, 2 and 4 workers, with a quantum of 1 and of 100, with two seeds,
//!   and by each policy; and a hundred runs by four workers of two threads that race, each of which prints one of the
//!   two numbers that it may.
#![tactic(auto)]

ghost use Rattle.std.specs.Prelude.{◌≡◌, MatchResult};
ghost use Rattle.engines.specs.Statuses.{complaint_status};

mod growing;
mod progress;

use class_library::library_classes;
use engines::{
    Complaint, Counted, Explanation, Failures, Fault, LibraryClass, Status, SystemFolder,
    explain_complaint, run,
};
use progress::{Cleared, Progress};
use std::alloc::AllocError;
use std::io::{ErrorKind, IsTerminal, Write};
use std::process::ExitCode;
use std::rt::Files;
use std::sync::Wait;
use std::thread::Threads;
use std::{env, io};

/// The status of a program that ended since nobody reads its output, as a shell shows the signal SIGPIPE.
const CLOSED_PIPE: u8 = 141;

fn main(rt: HostRuntime) -> ExitCode {
    let words = match words(&rt) {
        Ok(words) => words,
        Err(error) => return ExitCode::from(without_words(&rt, &error).code()),
    };
    let library = match library_classes(rt.alloc()) {
        Ok(library) => library,
        Err(AllocError) => return ExitCode::from(without_memory(&rt).code()),
    };
    let ending = done(&rt, &rt, library.as_slice(), words.as_slice());
    if ending.is_closed {
        return ExitCode::from(CLOSED_PIPE);
    }
    ExitCode::from(told(&rt, ending.outcome, ending.explanation.text()).code())
}

/// The words of the command line, the program's name first.
fn words(rt: &HostRuntime) -> io::Result<Vec<String>> {
    let words = env::args(rt)?;
    Ok(words.collect(rt.alloc())?)
}

/// What comes of the words.
#[derive(Drop)]
struct Ending<'a> {
    outcome: Result<Status, Complaint<'a>>,
    explanation: Explanation,
    /// Whether no more went wrong than that the output is a pipe that nobody reads.
    is_closed: bool,
}

/// Whether a pipe failed since nobody reads it.
fn is_closed(failure: Option<&io::Error>) -> bool {
    match failure {
        Some(error) => error.kind() == ErrorKind::BrokenPipe,
        None => false,
    }
}

/// Does what the words say over the files of the system, with the library, the standard input and the standard output,
/// all by the first handle. By the other, the same, the standard error shows how far a run or a search is, if it is a
/// terminal, and the standard output the lines of a run as they are printed, if it is one.
fn done<'a, R: Files + Input + Print + AllocGlobal + Threads + Wait + Sync>(
    rt: &R,
    host: &HostRuntime,
    library: &[LibraryClass<'a>],
    words: &[String],
) -> Ending<'a> {
    let is_wanted = host.stderr().is_terminal();
    let follows = host.stdout().is_terminal();
    let progress = Progress::new(host, is_wanted, follows);
    let mut output = Counted::new(rt.alloc(), Cleared::new(&progress, io::writer(rt)));
    let mut input = Counted::new(rt.alloc(), rt.reader());
    let mut folder = SystemFolder::new(rt);
    let mut explanation = Explanation::new(rt.alloc(), true);
    let outcome = run(
        rt,
        rt.alloc(),
        &progress,
        library,
        &mut folder,
        words,
        &mut input,
        &mut output,
        &mut explanation,
    );
    progress.clear();
    let failures = Failures {
        input: input.failure(),
        output: output.failure(),
    };
    if let Err(complaint) = &outcome {
        explain_complaint(
            rt.alloc(),
            library,
            &folder,
            words,
            complaint,
            failures,
            &mut explanation,
        );
    }
    let is_closed = is_closed(failures.output) && !explanation.is_file_lost();
    Ending {
        outcome,
        explanation,
        is_closed,
    }
}

/// The status where there is no memory for the words or the library.
fn without_memory(rt: &HostRuntime) -> Status {
    told(rt, Err(Complaint::Fault(Fault::Memory)), &[])
}

/// The status where the words can't be had: they aren't text, or there is no memory for them.
fn without_words(rt: &HostRuntime, error: &io::Error) -> Status {
    match error.kind() {
        ErrorKind::OutOfMemory => return without_memory(rt),
        ErrorKind::InvalidData => {
            let _ = rt.eprintln("error: a word of the command line is no UTF-8");
        }
        _ => {
            let _ = rt.eprintln(error);
        }
    }
    Status::Unusable
}

/// The status, after a complaint has been told, and the lines of the explanation. Where the standard error fails, the
/// status alone tells the complaint.
fn told(rt: &HostRuntime, outcome: Result<Status, Complaint<'_>>, explanation: &[u8]) -> Status
    ensures { MatchResult outcome.entry (λ status. result ≡ status) (λ complaint. result ≡ complaint_status complaint) }
{
    let status = match outcome {
        Ok(status) => status,
        Err(complaint) => {
            let _ = complaint.write_text(&mut rt.stderr());
            Status::of_complaint(&complaint)
        }
    };
    let _ = Write::write_all(&mut rt.stderr(), explanation);
    status
}
