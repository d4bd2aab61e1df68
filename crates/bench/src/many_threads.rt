//! `machine EVENTS FILE..` runs class files on the machine: the first argument names a file with a schedule, or is a
//! number of events of the main thread. It prints what the run printed, how many events were done and why
//! no more; how long the events alone took it says on standard error. `bench/machine.py` times it.

use crate::arguments::files;
use crate::telling::{tell_refusal, tell_time};
use anyhow::{Context, Result, bail};
use link_conditions::refusal::Refusal;
use linker::link;
use machine::schedule_runs::run_schedule;
use machine::{Machine, Stopped};
use model::Limits;
use program_runs::verified_programs::verified_program;
use schedule::report::push_printed;
use schedule::{Schedule, read_schedule};
use std::alloc::Global;
use std::env::Args;
use std::fs;
use std::time::Instant;
use verifier::{Verified, verify};

/// The files linked and verified.
fn accepted(alloc: Global, files: &[Vec<u8>]) -> Result<Verified, Refusal> {
    match link(alloc, files) {
        Ok(linked) => verify(alloc, linked),
        Err(refusal) => Err(refusal),
    }
}

/// Does so many events of the main thread.
fn steps(rt: &HostRuntime, machine: &mut Machine, most: u32) -> Result<(u64, Stopped)> {
    let start = Instant::now(rt)?;
    let (done, why) = machine.steps(0, most);
    tell_time(rt, start)?;
    Ok((u64::from(done), why))
}

/// Does the events of a schedule.
fn scheduled(
    rt: &HostRuntime,
    machine: &mut Machine,
    schedule: &Schedule,
) -> Result<(u64, Stopped)> {
    let start = Instant::now(rt)?;
    let ended = run_schedule(machine, schedule);
    tell_time(rt, start)?;
    Ok(ended)
}

/// The schedule of a file.
fn schedule_at(rt: &HostRuntime, path: &str) -> Result<Schedule> {
    let bytes = fs::read(rt, path)?;
    match read_schedule(rt.alloc(), bytes.as_slice()) {
        Ok((schedule, _)) => Ok(schedule),
        Err(_) => bail!("the schedule"),
    }
}

/// Does the events that a word asks for.
fn done(rt: &HostRuntime, machine: &mut Machine, word: &str) -> Result<(u64, Stopped)> {
    if let Ok(most) = word.parse::<u32>() {
        return steps(rt, machine, most);
    }
    let schedule = schedule_at(rt, word)?;
    scheduled(rt, machine, &schedule)
}

/// What a run came to.
fn tell(rt: &HostRuntime, machine: &Machine, done: u64, why: Stopped) -> Result<()> {
    let mut text = Vec::new(rt.alloc());
    push_printed(&mut text, &machine.shared().printed)?;
    print!(rt; "{}", str::from_utf8(&text).context("the text")?)?;
    println!(rt; "events {done}")?;
    match why {
        Stopped::Most => println!(rt; "all were done")?,
        Stopped::NotEnabled => println!(rt; "the next is not enabled")?,
        Stopped::Refused(_) => println!(rt; "the next is refused")?,
    }
    Ok(())
}

/// A machine of verified class files.
fn machine_of(alloc: Global, verified: &Verified) -> Result<Machine> {
    let limits = Limits::new(1_000_000, 4_000_000, 1_000, 1_000, 1_000).context("the limits")?;
    let program = verified_program(alloc, verified)?;
    Ok(Machine::open(alloc, program, limits)?)
}

/// Runs verified class files.
fn run_verified(rt: &HostRuntime, events: &str, verified: &Verified) -> Result<()> {
    let mut machine = machine_of(rt.alloc(), verified)?;
    let (done, why) = done(rt, &mut machine, events)?;
    tell(rt, &machine, done, why)
}

pub fn run(rt: &HostRuntime, mut args: Args) -> Result<()> {
    let events = args.next().context("which events")?;
    let files = files(rt, args)?;
    match accepted(rt.alloc(), files.as_slice()) {
        Ok(verified) => run_verified(rt, events.as_str(), &verified),
        Err(refusal) => tell_refusal(rt, &refusal),
    }
}
