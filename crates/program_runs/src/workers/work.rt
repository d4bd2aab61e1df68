//! What a worker does: bursts and turns, until the run has an end.

ghost use Rattle.std.specs.Prelude.{◌≤◌, IfOk, IsTrue};
ghost use Rattle.std.specs.Arc.{arc_value};
ghost use Rattle.program_runs.specs.worlds.Records.{IsRecordWithin};
ghost use Rattle.program_runs.specs.workers.Runs.{IsWorldOf};

use crate::workers::gate::Gate;
use crate::workers::held::{Given, Held};
use crate::worlds::{Recorded, ThreadBurst, World};
use model::Limits;
use std::alloc::{AllocError, Global};
use std::marker::Brand;
use std::sync::{Arc, Mutex, Wait};
use std::thread;
use std::thread::Threads;
use verifier::Verified;

/// A burst of the first thread in rotation from a number, done without the lock. There is none where no thread has a
/// burst, and where memory is wanted.
fn burst_from<J: Given, R: Wait, G: Gate>(
    rt: &R,
    alloc: Global,
    held: &Mutex<Held<J>>,
    gate: &G,
    from: u16,
) -> Option<ThreadBurst> {
    let checked_out = held.lock(rt).check_out(alloc, from);
    let Ok(Some(mut out)) = checked_out else {
        return None;
    };
    gate.burst_begins(out.thread);
    out.burst.run();
    gate.burst_ends(out.thread);
    Some(out)
}

/// What a worker did in a turn, while it held the lock.
#[derive(Clone, Copy)]
enum Turn {
    /// The worker took its burst over.
    Burst,
    /// The worker did events of a thread.
    Events(u16),
    /// Nothing: an end is set.
    Over,
}

/// Takes a burst over; where that isn't so, also for want of memory, does up to so many events of the first thread in
/// rotation from a number. Tells how many events are done in all.
fn take_turn<J: Given, R: Wait>(
    rt: &R,
    held: &Mutex<Held<J>>,
    out: Option<ThreadBurst>,
    from: u16,
    most: u32,
) -> (Turn, u32)
    requires { 1 ≤ most }
{
    let mut guard = held.lock(rt);
    let held = &mut *guard;
    if let Ok(true) = held.take_over(out) {
        return (Turn::Burst, held.count());
    }
    match held.shared_steps(from, most) {
        Some(thread) => (Turn::Events(thread), held.count()),
        None => (Turn::Over, held.count()),
    }
}

/// One worker, until an end is set: with bursts, where a turn is of one event, and else without. Its next burst, and
/// its next events, are those of a thread past the one of its last.
fn work<J: Given, R: Wait, G: Gate>(
    rt: &R,
    alloc: Global,
    held: &Mutex<Held<J>>,
    gate: &G,
    quantum: u32,
)
    requires some { 1 ≤ quantum }
    requires stops { IsTrue (G.may_stop gate.now) → IsTrue J.may_stop }
{
    let mut next_burst = 0u16;
    let mut next_events = 0u16;
    for _ in rt.forever() {
        let out = if quantum == 1 {
            burst_from(rt, alloc, held, gate, next_burst)
        } else {
            None
        };
        if let Some(out) = &out {
            next_burst = out.thread.wrapping_add(1);
        }
        let (turn, events) = take_turn(rt, held, out, next_events, quantum);
        gate.turn_ends(events);
        if gate.is_watching() {
            held.lock(rt).show(gate);
        }
        if gate.is_over() {
            held.lock(rt).stop();
        }
        match turn {
            Turn::Burst => {}
            Turn::Events(thread) => next_events = thread.wrapping_add(1),
            Turn::Over => return,
        }
    }
}

/// Runs a world by so many workers. The only error is a want of memory.
fn run_world<J: Given + Send + Sync, R: Threads + Wait + Sync, G: Gate + Sync>(
    rt: &R,
    alloc: Global,
    world: World,
    workers: usize,
    quantum: u32,
    gate: &G,
) -> Result<World, AllocError>
    requires some { 1 ≤ quantum }
    requires of { IsWorldOf J.trees J.limits J.budget J.may_stop world }
    requires stops { IsTrue (G.may_stop gate.now) → IsTrue J.may_stop }
    ensures { IfOk result (IsWorldOf J.trees J.limits J.budget J.may_stop) }
{
    let held = Mutex::new(Held::<J>::new(world));
    let shared = &held;
    let _done = thread::map_indices(
        rt,
        alloc,
        workers,
        &|_| { work(rt, alloc, shared, gate, quantum) },
    )?;
    Ok(held.into_inner().into_world())
}

/// Runs verified class files by so many workers until there is an end (JVMS 2.5, 2.6, 5.5, chapter 6; JLS 17), and
/// records the events that were done. Where the quantum is 1, a worker does the local instructions of a thread while
/// it doesn't hold the lock; and while it holds it, it does one event. With a greater quantum it does up to so many
/// events of a thread while it holds the lock, and none without it. The only error is a want of memory.
pub fn run_workers<R: Threads + Wait + Sync, G: Gate + Sync>(
    rt: &R,
    alloc: Global,
    verified: Arc<Verified>,
    limits: Limits,
    budget: u32,
    workers: usize,
    quantum: u32,
    gate: &G,
) -> Result<Recorded, AllocError>
    requires some { 1 ≤ quantum }
    requires few { workers ≤ 64 }
    ensures { IfOk result (IsRecordWithin (G.may_stop gate.now) (arc_value verified) limits budget) }
{
    let world = World::open(alloc, verified, limits, budget)?;
    let ended = run_world::<Brand, R, G>(rt, alloc, world, workers, quantum, gate)?;
    ended.into_recorded(alloc)
}
