//! Monitors as words.

ghost use Rattle.std.specs.Prelude.{◌≡◌, ◌<◌, ◌++◌, length, false, true, None, OnOk, IfOk};
ghost use Rattle.model.specs.Monitors.{monitor_at, unlocked};
ghost use Rattle.heap.specs.monitor.Locks.{is_fat_at};
ghost use Rattle.kept_parts.specs.Objects.{owner_code, waiters_row, monitor_row, IsMonitorRead, AreWaitersRead};
ghost use Rattle.kept_parts.specs.Objects.{IsOwnerRead, Enters, Joins, Inflates};

use crate::reader::Reader;
use crate::rows::{push, push_number, short_of};
use heap::Heap;
use heap::monitor::Call;
use model::MonitorAnswer;
use std::alloc::AllocError;

fn owner_code(owner: Option<u16>) -> u32
    ensures { result ≡ owner_code owner }
{
    match owner {
        None => 0,
        Some(thread) => u32::from(thread) + 1,
    }
}

/// The members of a wait set, each by its thread and count.
fn push_waiters(row: &mut Vec<u32>, heap: &Heap, object: u32) -> Result<(), AllocError>
    requires { object < length heap.now.locks.monitors }
    ensures { OnOk result (row.new.items
        ≡ row.old.items ++ waiters_row (monitor_at heap.now.locks.monitors object).waiters) }
{
    'waiters: for pick in 0..heap.waiter_count(object) {
        let Some(waiter) = heap.waiter(object, pick) else {
            unreachable!();
        };
        push(row, u32::from(waiter.thread))?;
        push(row, waiter.count)?;
    }
    Ok(())
}

pub(crate) fn push_monitor(row: &mut Vec<u32>, heap: &Heap, object: u32) -> Result<(), AllocError>
    requires { object < length heap.now.locks.monitors }
    ensures { OnOk result (row.new.items
        ≡ row.old.items ++ monitor_row (monitor_at heap.now.locks.monitors object)) }
{
    push(row, owner_code(heap.owner(object)))?;
    push(row, heap.entries(object))?;
    push_number(row, heap.waiter_count(object))?;
    push_waiters(row, heap, object)
}

/// A thread enters a monitor that no thread owns, so many times. An error where it can't.
fn enter_again(heap: &mut Heap, object: u32, thread: u16, count: u32) -> Result<(), AllocError>
    ensures { OnOk result (Enters object thread count heap.old heap.new) }
{
    let call = Call::Relock {
        object,
        thread,
        count,
    };
    if !heap.allows(call) {
        return Err(AllocError);
    }
    match heap.relock(object, thread, count) {
        MonitorAnswer::Done => Ok(()),
        MonitorAnswer::Held | MonitorAnswer::NotOwner => Err(AllocError),
    }
}

/// A thread joins a wait set with so many entries, as the last member. An error where it can't.
fn join(heap: &mut Heap, object: u32, thread: u16, count: u32) -> Result<(), AllocError>
    ensures { OnOk result (Joins object thread count heap.old heap.new) }
{
    enter_again(heap, object, thread, count)?;
    if !heap.allows(Call::Wait { object, thread }) {
        return Err(AllocError);
    }
    match heap.wait(object, thread) {
        Ok(MonitorAnswer::Done) => Ok(()),
        Ok(MonitorAnswer::Held | MonitorAnswer::NotOwner) | Err(_) => Err(AllocError),
    }
}

/// The lock of an object that no thread owns is inflated.
fn inflate(heap: &mut Heap, object: u32) -> Result<(), AllocError>
    ensures { OnOk result (Inflates object heap.old heap.new) }
{
    join(heap, object, 0, 1)?;
    if !heap.allows(Call::WakeAll { object }) {
        return Err(AllocError);
    }
    heap.wake_all(object);
    Ok(())
}

/// So many members of the wait set of an object, whose lock is inflated, by the next words.
fn read_members(
    reader: &mut Reader<'_>,
    heap: &mut Heap,
    object: u32,
    count: u32,
) -> Result<(), AllocError>
    ensures { OnOk result (AreWaitersRead object true count reader.old.rest.now reader.new.rest.now heap.old heap.new) }
{
    inflate(heap, object)?;
    'members: for _read in 0..count {
        let thread = reader.next_word()?;
        let entries = reader.next_word()?;
        join(heap, object, short_of(thread)?, entries)?;
    }
    Ok(())
}

/// The wait set of an object, by the next words. There is no member where the lock is not inflated.
fn read_waiters(
    reader: &mut Reader<'_>,
    heap: &mut Heap,
    object: u32,
    fat: bool,
    count: u32,
) -> Result<(), AllocError>
    requires free { monitor_at heap.old.locks.monitors object ≡ unlocked }
    requires thin { is_fat_at heap.old.locks object ≡ false }
    ensures { OnOk result (AreWaitersRead object fat count reader.old.rest.now reader.new.rest.now heap.old heap.new) }
{
    if fat {
        read_members(reader, heap, object, count)
    } else if count == 0 {
        Ok(())
    } else {
        Err(AllocError)
    }
}

/// The thread that a word says owns the monitor of an object, if it says one.
fn read_owner(heap: &mut Heap, object: u32, owner: u32, count: u32) -> Result<(), AllocError>
    requires none { (monitor_at heap.old.locks.monitors object).owner ≡ None }
    requires zero { (monitor_at heap.old.locks.monitors object).count ≡ 0 }
    ensures { OnOk result (IsOwnerRead object owner count heap.old heap.new) }
{
    match owner.checked_sub(1) {
        Some(thread) => enter_again(heap, object, short_of(thread)?, count),
        None if count == 0 => Ok(()),
        None => Err(AllocError),
    }
}

/// The monitor of an object, by the next words; its lock is inflated, or is not.
pub(crate) fn read_monitor(
    reader: &mut Reader<'_>,
    heap: &mut Heap,
    object: u32,
    fat: bool,
) -> Result<(), AllocError>
    requires there { object < length heap.old.locks.monitors }
    requires free { monitor_at heap.old.locks.monitors object ≡ unlocked }
    requires thin { is_fat_at heap.old.locks object ≡ false }
    ensures { OnOk result (IsMonitorRead object fat reader.old.rest.now reader.new.rest.now heap.old heap.new) }
{
    let owner = reader.next_word()?;
    let count = reader.next_word()?;
    let waiters = reader.next_word()?;
    read_waiters(reader, heap, object, fat, waiters)?;
    read_owner(heap, object, owner, count)
}
