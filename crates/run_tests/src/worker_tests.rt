//! Workers side by side: that their bursts overlap and are recorded. No clause says that a burst is done, nor by how
//! many threads.

use crate::class_files::{COUNTER_UNDER_LOCK, LOST_UPDATE};
use crate::program::linked;
use model::{End, Event, Limits, ScheduleEntry};
use program_runs::workers::{Gate, run_workers};
use std::alloc::Global;
use std::sync::Arc;
use std::sync::atomic::{AtomicBool, AtomicU64, Ordering};
use std::test::Fail;
use std::thread::yield_now;
use verifier::{Verified, verify};

/// How often the thread that is held gives way.
const TURNS: u32 = 10_000_000;

/// The class of a file, linked and verified.
fn verified(alloc: Global, file: &[u8]) -> Result<Arc<Verified>, Fail> {
    match verify(alloc, linked(alloc, file)?) {
        Ok(verified) => Ok(Arc::new(alloc, verified)?),
        Err(_) => Err("not verified".into()),
    }
}

/// The limits of these runs, which suffice.
fn limits() -> Result<Limits, Fail> {
    Ok(Limits::new(1_000_000, 16_000_000, 65_536, 256, 1_024).ok_or("limits")?)
}

/// Whether a run printed a text of ASCII.
fn is_printed(printed: &[u16], text: &str) -> bool {
    let bytes = text.as_bytes();
    if printed.len() != bytes.len() {
        return false;
    }
    for (unit, byte) in printed.iter().zip(bytes) {
        if *unit != u16::from(*byte) {
            return false;
        }
    }
    true
}

/// Holds the first burst of thread 1 or 2 until a burst of the other one begins, for so many turns at most, and notes
/// whether it has met it.
#[derive(Drop)]
struct Pair {
    turns: u32,
    /// The thread whose burst is held; 0 before there is one.
    first: AtomicU64,
    other: AtomicBool,
    met: AtomicBool,
}

impl Pair {
    fn new(turns: u32) -> Pair {
        Pair {
            turns,
            first: AtomicU64::new(0),
            other: AtomicBool::new(false),
            met: AtomicBool::new(false),
        }
    }

    /// Waits for a burst of the other thread. That it has begun counts only if it is seen from here: it begins in any
    /// case, later.
    fn hold(&self) {
        for _ in 0..self.turns {
            if self.other.load(Ordering::SeqCst) {
                self.met.store(true, Ordering::SeqCst);
                return;
            }
            yield_now();
        }
    }
}

impl Gate for Pair {
    ghost use Rattle.std.specs.Prelude.{false};

    ghost may_stop = { λ _. false };

    fn burst_begins(&self, thread: u16) {
        if thread != 1 && thread != 2 {
            return;
        }
        let thread = u64::from(thread);
        match self
            .first
            .compare_exchange(0, thread, Ordering::SeqCst, Ordering::SeqCst)
        {
            Ok(_) => self.hold(),
            Err(first) if first != thread => self.other.store(true, Ordering::SeqCst),
            Err(_) => {}
        }
    }

    fn burst_ends(&self, _thread: u16) {}

    fn turn_ends(&self, _events: u32) {}

    fn is_over(&self) -> bool {
        false
    }
}

#[test]
fn gate_two_bursts_at_once(rt: HostRuntime) -> Result<(), Fail> {
    let gate = Pair::new(TURNS);
    let verified = verified(rt.alloc(), &COUNTER_UNDER_LOCK)?;
    let recorded = run_workers(&rt, rt.alloc(), verified, limits()?, 100_000, 2, 1, &gate)?;
    assert!(rt; gate.met.load(Ordering::SeqCst));
    assert_eq!(rt; recorded.end, End::Quiet);
    assert!(rt; is_printed(&recorded.report.printed, "2000\n"));
    Ok(())
}

/// What one worker does: it commits bursts. Each entry is a thread, and how often.
static BY_ONE: [(u16, u32); 12] = [
    (0, 21),
    (1, 1),
    (0, 2),
    (1, 1),
    (2, 1),
    (1, 3),
    (2, 1),
    (1, 1),
    (2, 3),
    (0, 2),
    (2, 1),
    (0, 5),
];

/// Whether a schedule is of these threads, each with how often.
fn is_of(entries: &[ScheduleEntry], wanted: &[(u16, u32)]) -> bool {
    if entries.len() != wanted.len() {
        return false;
    }
    for (entry, (thread, repeat)) in entries.iter().zip(wanted) {
        let event = Event {
            thread: *thread,
            pick: 0,
        };
        if entry.event != event || entry.repeat != *repeat {
            return false;
        }
    }
    true
}

#[test]
fn one_worker_commits_bursts(rt: HostRuntime) -> Result<(), Fail> {
    let gate = Pair::new(0);
    let verified = verified(rt.alloc(), &LOST_UPDATE)?;
    let recorded = run_workers(&rt, rt.alloc(), verified, limits()?, 100_000, 1, 1, &gate)?;
    assert_eq!(rt; recorded.end, End::Quiet);
    assert!(rt; is_printed(&recorded.report.printed, "2\n"));
    assert!(rt; is_of(recorded.schedule.entries(), &BY_ONE));
    Ok(())
}
