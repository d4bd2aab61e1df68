//! `objects OBJECTS WAITERS` allocates so many objects, each with a field and a monitor that is entered once, and
//! lets a thread wait for as many of them. `bench/heap.sh` times it and reads its memory.

use crate::arguments::number;
use anyhow::{Context, Result, ensure};
use heap::Heap;
use heap::monitor::Call;
use model::{Limits, MonitorAnswer};
use std::alloc::Global;
use std::env::Args;

/// Whether one more object was made, whose field holds its reference and which thread 0 has entered.
fn is_made(heap: &mut Heap) -> bool {
    let Ok(object) = heap.alloc_object(0, 1, 1) else {
        return false;
    };
    heap.put_field(object, 0, object);
    heap.allows(Call::Enter { object, thread: 0 })
        && heap.enter(object, 0) == Ok(MonitorAnswer::Done)
}

/// Whether thread 0 waits for the object now.
fn is_awaited(heap: &mut Heap, object: u32) -> bool {
    heap.allows(Call::Wait { object, thread: 0 }) && heap.wait(object, 0) == Ok(MonitorAnswer::Done)
}

/// How many of so many objects were made.
fn made(heap: &mut Heap, objects: u32) -> u32 {
    for object in 0..objects {
        if !is_made(heap) {
            return object;
        }
    }
    objects
}

/// For how many of so many objects thread 0 waits.
fn awaited(heap: &mut Heap, objects: u32) -> u32 {
    for object in 0..objects {
        if !is_awaited(heap, object) {
            return object;
        }
    }
    objects
}

/// How many of the objects were made, for how many of the waiters thread 0 waits, and the field of the last object.
fn done(alloc: Global, limits: Limits, objects: u32, waiters: u32) -> (u32, u32, u32) {
    let mut heap = Heap::new(alloc, limits);
    let there = made(&mut heap, objects);
    let waits = awaited(&mut heap, waiters);
    (there, waits, heap.get_field(objects.saturating_sub(1), 0))
}

pub fn run(rt: &HostRuntime, mut args: Args) -> Result<()> {
    let objects = number(args.next(), "how many objects")?;
    let waiters = number(args.next(), "how many waiters")?;
    let limits = Limits::new(objects, objects, 8_388_608, 1, 1).context("the limits")?;
    let (there, waits, last) = done(rt.alloc(), limits, objects, waiters);
    ensure!(
        there == objects && waits == waiters,
        "{there} objects, {waits} waiters"
    );
    println!(rt; "{there} objects, {waits} waiters, the last field is {last}")?;
    Ok(())
}
