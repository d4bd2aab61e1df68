//! Threads that wait for each other.

ghost use Rattle.std.specs.Prelude.{◌≡◌, ◌≤◌, ◌^◌, IfOk, length, map, vec_items};
ghost use Rattle.explanations.specs.thread_explanations.Cycles.{AreCycles, next_of};
ghost use Rattle.explanations.specs.thread_explanations.Found.{IsFoundFrom};

use crate::thread_explanations::waits::Wait;
use std::alloc::{AllocError, Global};

/// The thread for which a thread waits, if it waits for one.
pub(crate) fn next_of(waits: &[Wait], thread: u16) -> Option<u16>
    ensures { result ≡ next_of waits.now thread }
{
    match waits.get(usize::from(thread)) {
        Some(wait) => wait.thread,
        None => None,
    }
}

/// The cycle of threads, each of which waits for the next one and the last for the first, whose least thread is this,
/// if it is in one.
fn cycle_from(alloc: Global, waits: &[Wait], least: u16) -> Result<Option<Vec<u16>>, AllocError>
    ensures { IfOk result (IsFoundFrom waits.now least) }
{
    let mut members = Vec::new(alloc);
    let mut at = least;
    for step in 0..waits.len() {
        members.push(at)?;
        let Some(next) = next_of(waits, at) else {
            return Ok(None);
        };
        if next == least {
            return Ok(Some(members));
        }
        if next < least {
            return Ok(None);
        }
        at = next;
    }
    Ok(None)
}

/// The cycles of threads, each of which waits for the next one and the last for the first: each cycle once, from its
/// least thread on.
pub(crate) fn cycles(alloc: Global, waits: &[Wait]) -> Result<Vec<Vec<u16>>, AllocError>
    requires { length waits.now ≤ 2 ^ 16 }
    ensures { IfOk result (λ found. AreCycles waits.now (map vec_items found.items)) }
{
    let mut found = Vec::new(alloc);
    for number in 0..waits.len() {
        if let Some(cycle) = cycle_from(alloc, waits, number as u16)? {
            found.push(cycle)?;
        }
    }
    Ok(found)
}
