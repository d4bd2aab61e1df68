//! `monitors TIMES THREADS OBJECTS FAT` times the monitors of objects: object 0 is entered and left so many times; so
//! many threads wait for object 1 and are notified at once; and of so many objects, two at least, as many as the last
//! number says get a waiter, which is notified. `bench/monitors.sh` times it.

use crate::arguments::number;
use anyhow::{Result, ensure};
use heap::monitor::{Call, MonitorCalls, Monitors};
use model::MonitorAnswer;
use std::alloc::{AllocError, Global};
use std::env::Args;

/// The most locks that may be fat.
const MOST_FAT: u32 = 65_536;

/// Threads in turn wait for objects.
const THREADS: u32 = 1000;

/// Enters and leaves the monitor of object 0 by thread 0 so often, and says how often both were done.
fn laps(monitors: &mut Monitors, times: u32) -> u32 {
    for lap in 0..times {
        if monitors.len() == 0 || monitors.enter(0, 0) != Ok(MonitorAnswer::Done) {
            return lap;
        }
        if monitors.len() == 0 || monitors.exit(0, 0) != MonitorAnswer::Done {
            return lap;
        }
    }
    times
}

/// Whether the call may be made, and was done.
fn is_done(monitors: &mut Monitors, call: Call) -> bool {
    monitors.allows(call) && monitors.apply(call) == Ok(MonitorAnswer::Done)
}

/// Whether the thread entered the monitor of the object and joined the wait set.
fn is_waiting(monitors: &mut Monitors, object: u32, thread: u16) -> bool {
    is_done(monitors, Call::Enter { object, thread })
        && is_done(monitors, Call::Wait { object, thread })
}

/// Whether the thread entered the monitor of the object, notified all waiters, and left it.
fn is_notified(monitors: &mut Monitors, object: u32, thread: u16) -> bool {
    is_done(monitors, Call::Enter { object, thread })
        && is_done(monitors, Call::NotifyAll { object, thread })
        && is_done(monitors, Call::Exit { object, thread })
}

/// So many threads wait for object 1 and are notified at once. Says how many waited.
fn crowd(monitors: &mut Monitors, threads: u16) -> u16 {
    for thread in 0..threads {
        if !is_waiting(monitors, 1, thread) {
            return thread;
        }
    }
    if is_notified(monitors, 1, 0) {
        threads
    } else {
        0
    }
}

/// One thread waits for each of so many objects, the last first, and then each is notified. Says for how many objects
/// a thread waited.
fn spread(monitors: &mut Monitors, objects: u32, fat: u32) -> u32 {
    for waiting in 0..fat.min(objects) {
        if !is_waiting(monitors, objects - 1 - waiting, (waiting % THREADS) as u16) {
            return waiting;
        }
    }
    for waiting in 0..fat.min(objects) {
        if !is_notified(monitors, objects - 1 - waiting, 0) {
            return 0;
        }
    }
    fat.min(objects)
}

/// How often an object is entered and left, how many threads wait for one, how many objects there are, and how many of
/// them get a waiter.
#[derive(Clone, Copy)]
struct Counts {
    times: u32,
    threads: u16,
    objects: u32,
    fat: u32,
}

/// The counts that the arguments are.
fn asked(mut args: Args) -> Result<Counts> {
    let times = number(args.next(), "how often")?;
    let threads = number(args.next(), "how many threads")?;
    let objects = number(args.next(), "how many objects")?;
    let fat = number(args.next(), "how many objects with a waiter")?;
    Ok(Counts {
        times,
        threads: u16::try_from(threads)?,
        objects,
        fat,
    })
}

/// Does what the counts ask for, and says how much of it was done.
fn done(alloc: Global, asked: Counts) -> Result<Counts, AllocError> {
    let mut monitors = Monitors::new(alloc, MOST_FAT);
    for _ in 0..asked.objects {
        monitors.add()?;
    }
    Ok(Counts {
        times: laps(&mut monitors, asked.times),
        threads: crowd(&mut monitors, asked.threads),
        objects: asked.objects,
        fat: spread(&mut monitors, asked.objects, asked.fat),
    })
}

pub fn run(rt: &HostRuntime, args: Args) -> Result<()> {
    let asked = asked(args)?;
    let Counts {
        times,
        threads,
        objects,
        fat,
    } = done(rt.alloc(), asked)?;
    ensure!(
        times == asked.times && threads == asked.threads && fat == asked.fat,
        "{times} times, {threads} threads, {fat} objects"
    );
    println!(rt;
        "{times} times entered and left, {threads} threads notified, {objects} objects, {fat} with a waiter"
    )?;
    Ok(())
}
