//! Delta debugging over the entries of a schedule.

ghost use Rattle.std.specs.Prelude.{◌≤◌, IfOk, OnOk};
ghost use Rattle.model.specs.Schedule.{events_of};
ghost use Rattle.shrinking.specs.Shrunk.{IsKept, IsShrunk};

use crate::candidates::{gathered, without};
use crate::switches::switch_count;
use crate::tries::Tries;
use schedule::Schedule;
use std::alloc::{AllocError, Global};

/// Puts another schedule in the place of the best one, if it has what is wanted in as few entries and switches, and in
/// fewer of one of them. Answers whether it does. The only error is a want of memory.
fn takes<T: Tries>(
    alloc: Global,
    tries: &T,
    best: &mut Schedule,
    candidate: Schedule,
) -> Result<bool, AllocError>
    requires { T.has tries.now (events_of best.old) }
    ensures { OnOk result (IsKept (T.has tries.now) (events_of best.old) (events_of best.new)) }
{
    let switches = switch_count(&candidate);
    let least = switch_count(best);
    if switches > least || (switches == least && candidate.len() >= best.len()) {
        return Ok(false);
    }
    if !tries.has(alloc, &candidate)? {
        return Ok(false);
    }
    *best = candidate;
    Ok(true)
}

/// Leaves out so many neighbouring entries at a time, the last ones first, where what is wanted is there without them.
/// Answers whether any are left out. The only error is a want of memory.
fn leave_out<T: Tries>(
    alloc: Global,
    tries: &T,
    best: &mut Schedule,
    size: usize,
) -> Result<bool, AllocError>
    requires some { 1 ≤ size }
    requires has { T.has tries.now (events_of best.old) }
    ensures { OnOk result (IsKept (T.has tries.now) (events_of best.old) (events_of best.new)) }
{
    let mut any = false;
    'places: for from in (0..best.len()).rev() {
        if from % size == 0 && from < best.len() {
            let to = from.saturating_add(size).min(best.len());
            let candidate = without(alloc, best, from, to)?;
            let taken = takes(alloc, tries, best, candidate)?;
            any = any || taken;
        }
    }
    Ok(any)
}

/// Moves each entry to the last one before it that is of the same thread, where what is wanted is there with that.
/// Answers whether any is moved. The only error is a want of memory.
fn gather<T: Tries>(alloc: Global, tries: &T, best: &mut Schedule) -> Result<bool, AllocError>
    requires { T.has tries.now (events_of best.old) }
    ensures { OnOk result (IsKept (T.has tries.now) (events_of best.old) (events_of best.new)) }
{
    let mut any = false;
    'places: for place in (0..best.len()).rev() {
        if place < best.len() {
            if let Some(candidate) = gathered(alloc, best, place)? {
                let taken = takes(alloc, tries, best, candidate)?;
                any = any || taken;
            }
        }
    }
    Ok(any)
}

/// Leaves out all entries, half of them, a quarter, and so on to single ones, where what is wanted is there without
/// them. Answers whether any are left out. The only error is a want of memory.
fn leave_out_less<T: Tries>(
    alloc: Global,
    tries: &T,
    best: &mut Schedule,
) -> Result<bool, AllocError>
    requires { T.has tries.now (events_of best.old) }
    ensures { OnOk result (IsKept (T.has tries.now) (events_of best.old) (events_of best.new)) }
{
    let mut any = false;
    let mut size = best.len().max(1);
    'sizes: for _ in 0..64 {
        let fewer = leave_out(alloc, tries, best, size)?;
        any = any || fewer;
        if size == 1 {
            break;
        }
        size = size.div_ceil(2);
    }
    Ok(any)
}

/// Leaves out entries, and gathers those that are left. Answers whether anything has changed. The only error is a want
/// of memory.
fn go_through<T: Tries>(alloc: Global, tries: &T, best: &mut Schedule) -> Result<bool, AllocError>
    requires { T.has tries.now (events_of best.old) }
    ensures { OnOk result (IsKept (T.has tries.now) (events_of best.old) (events_of best.new)) }
{
    let fewer = leave_out_less(alloc, tries, best)?;
    let gathers = gather(alloc, tries, best)?;
    Ok(fewer || gathers)
}

/// Goes through a schedule that has what is wanted until nothing changes. The only error is a want of memory.
fn shrunk<T: Tries>(alloc: Global, tries: &T, best: &mut Schedule) -> Result<(), AllocError>
    requires { T.has tries.now (events_of best.old) }
    ensures { OnOk result (IsKept (T.has tries.now) (events_of best.old) (events_of best.new)) }
{
    'rounds: for _ in 0..u32::MAX {
        if !go_through(alloc, tries, best)? {
            break;
        }
    }
    Ok(())
}

/// A schedule that has what is wanted as a given one has it, and as few switches as are found by leaving out entries
/// and gathering those of a thread; none where the given one hasn't got it. Each try is one of `tries`. The only error
/// is a want of memory.
pub fn shrink<T: Tries>(
    alloc: Global,
    tries: &T,
    given: &Schedule,
) -> Result<Option<Schedule>, AllocError>
    ensures { IfOk result (IsShrunk (T.has tries.now) (T.lacks tries.now) (events_of given.now)) }
{
    if !tries.has(alloc, given)? {
        return Ok(None);
    }
    let mut best = given.joined(alloc)?;
    shrunk(alloc, tries, &mut best)?;
    Ok(Some(best))
}
