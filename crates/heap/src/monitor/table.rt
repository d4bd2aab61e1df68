//! What the monitors of fat locks answer.

ghost use Rattle.std.specs.Prelude.{◌≡◌, ◌<◌, ◌≤◌, [], ◌∷◌, ◌++◌, length, true, false, Some, None, IfOk, OnOk, OnErr};
ghost use Rattle.std.specs.Prelude.{IfErr, IfSome, MatchOption, slice_get, slice_set};
ghost use Rattle.std.specs.List.{remove};
ghost use Rattle.heap.specs.monitor.Locks.{is_at_most_entries};
ghost use Rattle.model.specs.Monitors.{owned, unlocked, owns, without, monitor_at, monitor_enter, monitor_exit};
ghost use Rattle.model.specs.Monitors.{monitor_wait, monitor_notify, monitor_notify_all, monitor_wake_all};
ghost use Rattle.model.specs.Monitors.{monitor_interrupt, monitor_relock};

use crate::monitor::records::Records;
use crate::monitor::refusal::MonitorRefusal;
use crate::monitor::waiter::Waiter;
use model::MonitorAnswer;
use std::alloc::{AllocError, Global};
use std::marker::Model;

fn is_owner(records: &Records, index: u32, thread: u16) -> bool
    requires { index < length records.now }
    ensures { result ≡ owns thread (monitor_at records.now index).owner }
{
    records.owner(index) == Some(thread)
}

/// Where the thread stands in a wait set.
fn position(records: &Records, index: u32, thread: u16) -> Option<usize>
    requires { index < length records.now }
    ensures member { IfSome result (λ at. at < length (monitor_at records.now index).waiters) }
    ensures value { MatchOption result (without thread (monitor_at records.now index).waiters
        ≡ (monitor_at records.now index).waiters) (λ at. remove (monitor_at records.now index).waiters at
        ≡ without thread (monitor_at records.now index).waiters) }
{
    for at in 0..records.waiter_count(index) {
        if records.member(index, at).thread == thread {
            return Some(at);
        }
    }
    None
}

/// All members leave a wait set, the last first.
fn clear(records: &mut Records, index: u32)
    requires { index < length records.old }
    ensures { records.new ≡ slice_set records.old index (record (monitor_at records.old index) { waiters = [] }) }
{
    let mut count = records.waiter_count(index);
    while count > 0 {
        count -= 1;
        records.leave(index, count);
    }
}

/// The monitors of fat locks, by the indices that these name.
#[derive(Drop)]
pub struct Table {
    records: Records,
}

impl Model for Table {
    ghost use Rattle.std.specs.Prelude.{List};
    ghost use Rattle.model.specs.State.{Monitor};

    ghost Value = { List Monitor };

    ghost view = { λ t. t.records };
}

impl Table {
    pub fn new(alloc: Global) -> Table
        ensures { result ≡ [] }
    {
        Table {
            records: Records::new(alloc),
        }
    }

    pub fn len(&self) -> usize
        ensures { result ≡ length self.now }
    {
        self.records.len()
    }

    /// What another table is, which has at most 8,388,608 monitors. The only error is a want of memory.
    pub fn copied(self, other: &Table) -> Result<Table, AllocError>
        requires { length other.now ≤ 8388608 }
        ensures { IfOk result (λ table. table ≡ other.now) }
    {
        let Table { records } = self;
        Ok(Table {
            records: records.copied(&other.records)?,
        })
    }

    /// One more monitor that a thread has entered so often, with an empty wait set.
    pub fn add_owned(&mut self, owner: u16, count: u32) -> Result<(), AllocError>
        ensures ok { OnOk result (self.new ≡ self.old ++ owned unlocked owner count ∷ []) }
        ensures err { OnErr result (self.new ≡ self.old) }
    {
        self.records.add(Some(owner), count)
    }

    /// One more monitor without an owner, in whose wait set this thread is alone.
    pub fn add_waiting(&mut self, waiter: Waiter) -> Result<(), AllocError>
        ensures ok { OnOk result (self.new
            ≡ self.old ++ record { owner = None; count = 0; waiters = waiter ∷ [] } ∷ []) }
        ensures err { OnErr result (self.new ≡ self.old) }
    {
        self.records.add_waiting(waiter)
    }

    pub fn owner(&self, index: u32) -> Option<u16>
        requires { index < length self.now }
        ensures { result ≡ (monitor_at self.now index).owner }
    {
        self.records.owner(index)
    }

    pub fn count(&self, index: u32) -> u32
        requires { index < length self.now }
        ensures { result ≡ (monitor_at self.now index).count }
    {
        self.records.count(index)
    }

    /// How many threads are in the wait set.
    pub fn waiter_count(&self, index: u32) -> usize
        requires { index < length self.now }
        ensures { result ≡ length (monitor_at self.now index).waiters }
    {
        self.records.waiter_count(index)
    }

    /// The member of this number in joining order.
    pub fn waiter(&self, index: u32, pick: usize) -> Option<Waiter>
        requires { index < length self.now }
        ensures { result ≡ slice_get (monitor_at self.now index).waiters pick }
    {
        self.records.waiter(index, pick)
    }

    /// The members of the wait set in joining order.
    pub fn waiters(&self, alloc: Global, index: u32) -> Result<Vec<Waiter>, AllocError>
        requires { index < length self.now }
        ensures { IfOk result (λ v. v.items ≡ (monitor_at self.now index).waiters) }
    {
        let mut waiters = Vec::new(alloc);
        for pick in 0..self.records.waiter_count(index) {
            waiters.push(self.records.member(index, pick))?;
        }
        Ok(waiters)
    }

    /// Enters once; an owner with 4,294,967,295 entries is refused.
    pub fn enter(&mut self, index: u32, thread: u16) -> Result<MonitorAnswer, MonitorRefusal>
        requires { index < length self.old }
        ensures answer { IfOk result (λ a. a ≡ (monitor_enter thread (monitor_at self.old index)).answer) }
        ensures after { OnOk result (self.new
            ≡ slice_set self.old index (monitor_enter thread (monitor_at self.old index)).after) }
        ensures counted { OnOk result (is_at_most_entries thread (monitor_at self.old index) ≡ false) }
        ensures refused { IfErr result (λ e. (e ≡ MonitorRefusal.LockCount)
            × (is_at_most_entries thread (monitor_at self.old index) ≡ true)
            × (self.new ≡ self.old)) }
    {
        match self.records.owner(index) {
            None => {
                self.records.set_owner(index, Some(thread), 1);
                Ok(MonitorAnswer::Done)
            }
            Some(owner) if owner == thread => {
                let Some(count) = self.records.count(index).checked_add(1) else {
                    return Err(MonitorRefusal::LockCount);
                };
                self.records.set_owner(index, Some(thread), count);
                Ok(MonitorAnswer::Done)
            }
            Some(_) => Ok(MonitorAnswer::Held),
        }
    }

    pub fn exit(&mut self, index: u32, thread: u16) -> MonitorAnswer
        requires { index < length self.old }
        ensures answer { result ≡ (monitor_exit thread (monitor_at self.old index)).answer }
        ensures after { self.new ≡ slice_set self.old index (monitor_exit thread (monitor_at self.old index)).after }
    {
        if !is_owner(&self.records, index, thread) {
            return MonitorAnswer::NotOwner;
        }
        let left = self.records.count(index).saturating_sub(1);
        let owner = if left == 0 { None } else { Some(thread) };
        self.records.set_owner(index, owner, left);
        MonitorAnswer::Done
    }

    /// Joins the wait set; without memory nothing changes.
    pub fn wait(&mut self, index: u32, thread: u16) -> Result<MonitorAnswer, AllocError>
        requires { index < length self.old }
        ensures answer { IfOk result (λ a. a ≡ (monitor_wait thread (monitor_at self.old index)).answer) }
        ensures after { OnOk result (self.new
            ≡ slice_set self.old index (monitor_wait thread (monitor_at self.old index)).after) }
        ensures joins { OnErr result (owns thread (monitor_at self.old index).owner ≡ true) }
        ensures refused { OnErr result (self.new ≡ self.old) }
    {
        if !is_owner(&self.records, index, thread) {
            return Ok(MonitorAnswer::NotOwner);
        }
        let count = self.records.count(index);
        self.records.join(index, Waiter { thread, count })?;
        self.records.set_owner(index, None, 0);
        Ok(MonitorAnswer::Done)
    }

    pub fn notify(&mut self, index: u32, thread: u16, pick: u16) -> MonitorAnswer
        requires { index < length self.old }
        ensures answer { result ≡ (monitor_notify thread pick (monitor_at self.old index)).answer }
        ensures after { self.new
            ≡ slice_set self.old index (monitor_notify thread pick (monitor_at self.old index)).after }
    {
        if !is_owner(&self.records, index, thread) {
            return MonitorAnswer::NotOwner;
        }
        let pick = usize::from(pick);
        if pick < self.records.waiter_count(index) {
            self.records.leave(index, pick);
        }
        MonitorAnswer::Done
    }

    pub fn notify_all(&mut self, index: u32, thread: u16) -> MonitorAnswer
        requires { index < length self.old }
        ensures answer { result ≡ (monitor_notify_all thread (monitor_at self.old index)).answer }
        ensures after { self.new
            ≡ slice_set self.old index (monitor_notify_all thread (monitor_at self.old index)).after }
    {
        if !is_owner(&self.records, index, thread) {
            return MonitorAnswer::NotOwner;
        }
        clear(&mut self.records, index);
        MonitorAnswer::Done
    }

    pub fn wake_all(&mut self, index: u32)
        requires { index < length self.old }
        ensures { self.new ≡ slice_set self.old index (monitor_wake_all (monitor_at self.old index)).after }
    {
        clear(&mut self.records, index);
    }

    pub fn interrupt(&mut self, index: u32, thread: u16)
        requires { index < length self.old }
        ensures { self.new ≡ slice_set self.old index (monitor_interrupt thread (monitor_at self.old index)).after }
    {
        if let Some(at) = position(&self.records, index, thread) {
            self.records.leave(index, at);
        }
    }

    pub fn relock(&mut self, index: u32, thread: u16, count: u32) -> MonitorAnswer
        requires { index < length self.old }
        ensures answer { result ≡ (monitor_relock thread count (monitor_at self.old index)).answer }
        ensures after { self.new
            ≡ slice_set self.old index (monitor_relock thread count (monitor_at self.old index)).after }
    {
        if self.records.owner(index).is_some() {
            return MonitorAnswer::Held;
        }
        self.records.set_owner(index, Some(thread), count);
        MonitorAnswer::Done
    }
}
