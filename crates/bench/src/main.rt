//! Programs that time others: the first argument names one of them, which has the other arguments. What each takes
//! and tells stands at the head of its module. With `each FILE` each line of the file is such words.
//!
//! # Not proved
//!
//! The program is proved safe, and nothing is promised of what it does (docs/MEASURES.md). Its stored run is one of
//! each word.
//!
//! The stored run of `bench link` links 43 class files of javac (17, `--release 8`, version set to 49.0) in 30 sets.
//! Some have interfaces, inner classes, abstract classes, access methods, narrow arrays and their clones, threads,
//! assertions, concatenation and messages. Others reach outside: enum, boxing, long, lambda, default and native methods,
//! classes left out. Each of these is refused by its name. What the run must print was written from the rules and
//! javap.
//!
//! The stored run of `bench machine` does a schedule of 32,044 events of three threads, two of which count under a
//! lock: it prints 2000. The class file was assembled, and what the run prints was worked out, by programs that are not
//! this one.
#![tactic(auto)]

mod arguments;
mod bursts_of_locals;
mod class_files;
mod linking;
mod many_threads;
mod monitors;
mod objects;
mod samples;
mod telling;
mod verification;

use anyhow::{Context, Result, bail};
use std::env::Args;
use std::{env, fs};

/// The words that name them.
const WORDS: &str = "bursts, decode, link, machine, monitors, objects, verify";

/// Runs the program that a word names.
fn named(rt: &HostRuntime, word: &str, args: Args) -> Result<()> {
    match word {
        "bursts" => bursts_of_locals::run(rt, args),
        "decode" => class_files::run(rt, args),
        "link" => linking::run(rt, args),
        "machine" => many_threads::run(rt, args),
        "monitors" => monitors::run(rt, args),
        "objects" => objects::run(rt, args),
        "verify" => verification::run(rt, args),
        _ => bail!("{word} is none of {WORDS}"),
    }
}

/// Runs the program that the first word of a line names, with the other words. An empty line runs none.
fn run_line(rt: &HostRuntime, line: &str) -> Result<()> {
    let mut words = Vec::new(rt.alloc());
    for word in line.split_whitespace() {
        words.push(String::from_str(rt.alloc(), word)?)?;
    }
    let mut args = words.into_iter();
    match args.next() {
        Some(word) => named(rt, word.as_str(), args),
        None => Ok(()),
    }
}

fn main(rt: HostRuntime) -> Result<()> {
    let mut args = env::args(&rt)?;
    let word = args.nth(1).context(WORDS)?;
    if word.as_str() != "each" {
        return named(&rt, word.as_str(), args);
    }
    let path = args.next().context("which file")?;
    let lines = fs::read_to_string(&rt, path.as_str())?;
    for line in lines.lines() {
        run_line(&rt, line)?;
    }
    Ok(())
}
