//! The records of fat locks, with the waiters of all of them in one slab.

ghost use Rattle.std.specs.Prelude.{◌≡◌, ◌<◌, ◌≤◌, [], ◌∷◌, ◌++◌, length, true, false, Some, None, IfOk, OnOk, OnErr};
ghost use Rattle.std.specs.Prelude.{IfErr, slice_get, slice_set, slice_index};
ghost use Rattle.std.specs.List.{remove};
ghost use Rattle.model.specs.Monitors.{monitor_at};

use crate::monitor::waiter::Waiter;
use slab::Slab;
use std::alloc::{AllocError, Global};
use std::marker::Model;

/// An owner, its entries, and the keys of the waiters in joining order.
#[derive(Drop)]
struct Listing {
    owner: Option<u16>,
    count: u32,
    keys: Vec<usize>,
}

impl Model for Listing {
    ghost use Rattle.heap.specs.monitor.Records.{Listing as Shown};

    ghost Value = { Shown };

    ghost view = { λ l. record { owner = l.owner; count = l.count; keys = l.keys.items } };
}

impl Listing {
    fn key(&self, pick: usize) -> Option<usize>
        ensures { result ≡ slice_get self.now.keys pick }
    {
        self.keys.get(pick).copied()
    }

    fn push(&mut self, key: usize) -> Result<(), AllocError>
        ensures ok { OnOk result (self.new ≡ record self.old { keys = self.old.keys ++ key ∷ [] }) }
        ensures err { OnErr result (self.new ≡ self.old) }
    {
        self.keys.push(key)?;
        Ok(())
    }

    fn remove(&mut self, pick: usize) -> usize
        requires { pick < length self.old.keys }
        ensures key { result ≡ slice_index self.old.keys pick }
        ensures rest { self.new ≡ record self.old { keys = remove self.old.keys pick } }
    {
        self.keys.remove(pick)
    }

    fn set_owner(&mut self, owner: Option<u16>, count: u32)
        ensures { self.new ≡ record self.old { owner = owner; count = count } }
    {
        self.owner = owner;
        self.count = count;
    }
}

/// The monitors of fat locks, by the indices that these name.
#[derive(Drop)]
pub struct Records {
    listings: Vec<Listing>,
    waiters: Slab<Waiter>,
    alloc: Global,
}

impl Model for Records {
    ghost use Rattle.std.specs.Prelude.{List};
    ghost use Rattle.model.specs.State.{Monitor};
    ghost use Rattle.heap.specs.monitor.Records.{monitors_shown, AreListed};

    ghost Value = { List Monitor };

    ghost view = { λ r. monitors_shown r.waiters r.listings.items };

    ghost invariant = { λ r. AreListed r.listings.items r.waiters };
}

impl Records {
    pub fn new(alloc: Global) -> Records
        ensures { result ≡ [] }
    {
        Records {
            listings: Vec::new(alloc),
            waiters: Slab::new(alloc),
            alloc,
        }
    }

    pub fn len(&self) -> usize
        ensures { result ≡ length self.now }
    {
        self.listings.len()
    }

    /// What other records are, of which there are at most 8,388,608. The only error is a want of memory.
    pub fn copied(self, other: &Records) -> Result<Records, AllocError>
        requires { length other.now ≤ 8388608 }
        ensures { IfOk result (λ records. records ≡ other.now) }
    {
        let mut copy = Records::new(self.alloc);
        'records: for index in 0..other.len() {
            copy.add_like(other, index as u32)?;
        }
        Ok(copy)
    }

    /// One more record, like one of others.
    fn add_like(&mut self, other: &Records, index: u32) -> Result<(), AllocError>
        requires few { length self.old < 8388608 }
        requires there { index < length other.now }
        ensures { OnOk result (self.new ≡ self.old ++ monitor_at other.now index ∷ []) }
    {
        let at = self.len() as u32;
        self.add(other.owner(index), other.count(index))?;
        self.join_all(at, other, index)
    }

    /// The wait set, which is empty, becomes that of a record of others.
    fn join_all(&mut self, at: u32, other: &Records, index: u32) -> Result<(), AllocError>
        requires here { at < length self.old }
        requires empty { (monitor_at self.old at).waiters ≡ [] }
        requires there { index < length other.now }
        ensures { OnOk result (self.new ≡ slice_set self.old at
            (record (monitor_at self.old at) { waiters = (monitor_at other.now index).waiters })) }
    {
        'waiters: for pick in 0..other.waiter_count(index) {
            self.join(at, other.member(index, pick))?;
        }
        Ok(())
    }

    pub fn owner(&self, index: u32) -> Option<u16>
        requires { index < length self.now }
        ensures { result ≡ (monitor_at self.now index).owner }
    {
        let listing = &self.listings[index as usize];
        listing.owner
    }

    pub fn count(&self, index: u32) -> u32
        requires { index < length self.now }
        ensures { result ≡ (monitor_at self.now index).count }
    {
        let listing = &self.listings[index as usize];
        listing.count
    }

    /// How many threads are in the wait set.
    pub fn waiter_count(&self, index: u32) -> usize
        requires { index < length self.now }
        ensures { result ≡ length (monitor_at self.now index).waiters }
    {
        let listing = &self.listings[index as usize];
        listing.keys.len()
    }

    /// The member of this number in joining order.
    pub fn waiter(&self, index: u32, pick: usize) -> Option<Waiter>
        requires { index < length self.now }
        ensures { result ≡ slice_get (monitor_at self.now index).waiters pick }
    {
        let listing = &self.listings[index as usize];
        match listing.key(pick) {
            Some(key) => self.waiters.get(key).copied(),
            None => None,
        }
    }

    /// The member of this number, which is there.
    pub fn member(&self, index: u32, pick: usize) -> Waiter
        requires there { index < length self.now }
        requires member { pick < length (monitor_at self.now index).waiters }
        ensures { slice_get (monitor_at self.now index).waiters pick ≡ Some result }
    {
        match self.waiter(index, pick) {
            Some(waiter) => waiter,
            None => unreachable!(),
        }
    }

    /// One more record, with an empty wait set.
    pub fn add(&mut self, owner: Option<u16>, count: u32) -> Result<(), AllocError>
        ensures ok { OnOk result (self.new ≡ self.old ++ record { owner = owner; count = count; waiters = [] } ∷ []) }
        ensures err { OnErr result (self.new ≡ self.old) }
    {
        let listing = Listing {
            owner,
            count,
            keys: Vec::new(self.alloc),
        };
        self.listings.push(listing)?;
        Ok(())
    }

    pub fn set_owner(&mut self, index: u32, owner: Option<u16>, count: u32)
        requires { index < length self.old }
        ensures { self.new ≡ slice_set self.old index
            (record (monitor_at self.old index) { owner = owner; count = count }) }
    {
        self.listings[index as usize].set_owner(owner, count);
    }

    /// One more record, without an owner, in whose wait set this thread is alone.
    pub fn add_waiting(&mut self, waiter: Waiter) -> Result<(), AllocError>
        ensures ok { OnOk result (self.new
            ≡ self.old ++ record { owner = None; count = 0; waiters = waiter ∷ [] } ∷ []) }
        ensures err { OnErr result (self.new ≡ self.old) }
    {
        self.waiters.reserve(1)?;
        let mut keys = Vec::with_capacity(self.alloc, 1)?;
        keys.push(self.waiters.vacant_key())?;
        let listing = Listing {
            owner: None,
            count: 0,
            keys,
        };
        self.listings.push(listing)?;
        self.waiters.insert_reserved(waiter);
        Ok(())
    }

    /// Joins the wait set as last; without memory nothing changes.
    pub fn join(&mut self, index: u32, waiter: Waiter) -> Result<(), AllocError>
        requires { index < length self.old }
        ensures ok { OnOk result (self.new ≡ slice_set self.old
            index (record (monitor_at self.old index) {
              waiters = (monitor_at self.old index).waiters
                  ++ waiter ∷ [];
            })) }
        ensures err { OnErr result (self.new ≡ self.old) }
    {
        self.waiters.reserve(1)?;
        let key = self.waiters.vacant_key();
        self.listings[index as usize].push(key)?;
        self.waiters.insert_reserved(waiter);
        Ok(())
    }

    /// The member of this number leaves the wait set.
    pub fn leave(&mut self, index: u32, pick: usize)
        requires there { index < length self.old }
        requires member { pick < length (monitor_at self.old index).waiters }
        ensures { self.new ≡ slice_set self.old
            index (record (monitor_at self.old index) { waiters = remove (monitor_at self.old index).waiters pick }) }
    {
        let key = self.listings[index as usize].remove(pick);
        self.waiters.remove(key);
    }
}
