//! `bursts NUMBER [timed]` runs methods by their linked code, in one burst each, up to the number: those of local
//! instructions by `local_burst`, and all by `object_burst`. With `timed` it also tells the thread's processor time
//! for an instruction, the least of 25 runs.

use crate::arguments::number;
use crate::samples::{Argument, Sample, samples};
use anyhow::{Context, Result};
use heap::Heap;
use linked_code::local_bursts::{Position, local_burst};
use machine::object_bursts::object_burst;
use model::Limits;
use std::alloc::Global;
use std::env::Args;
use std::time::CpuClock;

/// How many instructions a method did, the word that it returns, and the nanoseconds that it took.
#[derive(Clone, Copy)]
struct Measured {
    count: u64,
    result: u32,
    nanoseconds: u128,
}

/// A method of local instructions.
fn local_run(rt: &impl CpuClock, sample: Sample, number: u32) -> Result<Measured> {
    let mut locals = [number, 0, 0, 0];
    let mut stack = [0u32; 4];
    let mut position = Position { place: 0, depth: 0 };
    let begin = rt.thread_cpu_time()?;
    let count = local_burst(
        sample.code,
        &mut locals,
        &mut stack,
        &mut position,
        u64::MAX,
    );
    let end = rt.thread_cpu_time()?;
    Ok(Measured {
        count,
        result: stack[0],
        nanoseconds: end.saturating_sub(begin).as_nanos(),
    })
}

/// The word of what a method works on.
fn argument_word(heap: &mut Heap, argument: Argument, number: u32) -> u32 {
    let made = match argument {
        Argument::Nothing => return 0,
        Argument::Ints => heap.alloc_ints(number),
        Argument::Object => heap.alloc_object(0, 1, 1),
    };
    match made {
        Ok(reference) => reference.wrapping_add(1),
        Err(_) => 0,
    }
}

/// A method with what it works on.
fn object_run(rt: &impl CpuClock, alloc: Global, sample: Sample, number: u32) -> Result<Measured> {
    let limits = Limits::new(1, number.max(1), 1, 1, 1).context("the limits")?;
    let mut heap = Heap::new(alloc, limits);
    let mut locals = [
        number,
        argument_word(&mut heap, sample.argument, number),
        0,
        0,
        0,
    ];
    let mut stack = [0u32; 4];
    let mut position = Position { place: 0, depth: 0 };
    let begin = rt.thread_cpu_time()?;
    let count = object_burst(
        sample.code,
        &mut locals,
        &mut stack,
        &mut position,
        &mut heap,
        &mut [],
        &[],
        u64::MAX,
    );
    let end = rt.thread_cpu_time()?;
    Ok(Measured {
        count,
        result: stack[0],
        nanoseconds: end.saturating_sub(begin).as_nanos(),
    })
}

/// The picoseconds of an instruction, by the least of a run and 24 more.
fn picoseconds(
    rt: &impl CpuClock,
    alloc: Global,
    sample: Sample,
    number: u32,
    is_local: bool,
) -> Result<u128> {
    let mut least = u128::MAX;
    let mut count = 0;
    for _run in 0..25u32 {
        let run = if is_local {
            local_run(rt, sample, number)?
        } else {
            object_run(rt, alloc, sample, number)?
        };
        least = least.min(run.nanoseconds);
        count = run.count;
    }
    Ok(least.saturating_mul(1000) / u128::from(count.max(1)))
}

/// Tells what a method did, and where it is wanted its time.
fn tell(rt: &HostRuntime, sample: Sample, number: u32, is_timed: bool) -> Result<()> {
    let alloc = rt.alloc();
    let run = object_run(rt, alloc, sample, number)?;
    println!(rt;
        "{}: {} instructions, {}",
        sample.name, run.count, run.result
    )?;
    if let Argument::Nothing = sample.argument {
        let run = local_run(rt, sample, number)?;
        println!(rt; "  as local: {} instructions, {}", run.count, run.result)?;
        if is_timed {
            let each = picoseconds(rt, alloc, sample, number, true)?;
            println!(rt; "  {each} ps each as local")?;
        }
    }
    if is_timed {
        let each = picoseconds(rt, alloc, sample, number, false)?;
        println!(rt; "  {each} ps each")?;
    }
    Ok(())
}

pub fn run(rt: &HostRuntime, mut args: Args) -> Result<()> {
    let number = number(args.next(), "up to which number")?;
    let is_timed = args.next().is_some();
    for sample in &samples() {
        tell(rt, *sample, number, is_timed)?;
    }
    Ok(())
}
