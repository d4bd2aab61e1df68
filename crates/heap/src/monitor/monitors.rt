//! Monitors by the references of their objects.

ghost use Rattle.std.specs.Prelude.{◌≡◌, ◌<◌, ◌≤◌, [], ◌∷◌, ◌++◌, Ok, Err, IfOk, OnOk, OnErr, IfErr, false};
ghost use Rattle.std.specs.Prelude.{MatchResult, slice_get, length, IsTrue, ◌↔◌};
ghost use Rattle.heap.specs.lock_word.Words.{HasRoomFor};
ghost use Rattle.model.specs.Monitors.{unlocked, monitor_at};
ghost use Rattle.heap.specs.monitor.Locks.{Answers, IsAllowed, is_fat_at};
ghost use Rattle.heap.specs.monitor.Words.{lock_at};

use crate::lock_word::{Lock, LockWord, TryEnter, TryExit};
use crate::monitor::call::{Call, MonitorCalls};
use crate::monitor::refusal::MonitorRefusal;
use crate::monitor::table::Table;
use crate::monitor::waiter::Waiter;
use model::MonitorAnswer;
use model::built_in::MOST_THREADS;
use std::alloc::{AllocError, Global};
use std::marker::Model;

/// The monitors of objects, by the references of the objects.
///
/// An object's monitor stands in its lock word as long as at most 256 entries are to be counted and no thread joins
/// the wait set. Then the lock is inflated, for good: its word names a record in a table.
#[derive(Drop)]
pub struct Monitors {
    words: Vec<LockWord>,
    table: Table,
    limit: u32,
}

impl Model for Monitors {
    ghost use Rattle.heap.specs.monitor.Locks.{Locks};
    ghost use Rattle.heap.specs.monitor.Words.{locks_of, AreSound};

    ghost Value = { Locks };

    ghost view = { λ m. locks_of m.table m.words.items m.limit };

    ghost invariant = { λ m. AreSound m.table m.words.items m.limit };
}

/// The lock word of an object.
#[inline]
fn word_of(words: &[LockWord], object: u32) -> LockWord
    requires { object < length words.now }
    ensures { result.lock ≡ lock_at words.now object }
{
    words[object as usize]
}

/// The lock of an object.
fn lock_of(words: &[LockWord], object: u32) -> Lock
    requires { object < length words.now }
    ensures same { result ≡ lock_at words.now object }
    ensures fits { HasRoomFor result }
{
    word_of(words, object).lock()
}

/// The index of the next record, where the table may have one more.
fn next_index(table: &Table, limit: u32) -> Result<u32, MonitorRefusal>
    ensures next { IfOk result (λ index. (index ≡ length table.now) × (length table.now < limit)) }
    ensures full { IfErr result (λ e. (e ≡ MonitorRefusal.Monitors) × (limit ≤ length table.now)) }
{
    let index = table.len();
    if index < limit as usize {
        Ok(index as u32)
    } else {
        Err(MonitorRefusal::Monitors)
    }
}

impl Monitors {
    /// No monitors; at most so many locks become fat, and that is at most 8,388,608.
    pub fn new(alloc: Global, limit: u32) -> Monitors
        requires { limit ≤ 8388608 }
        ensures { result ≡ record { monitors = []; fat = []; limit = limit } }
    {
        Monitors {
            words: Vec::new(alloc),
            table: Table::new(alloc),
            limit,
        }
    }

    /// The monitor of one more object, which no thread owns.
    pub fn add(&mut self) -> Result<(), AllocError>
        ensures ok { OnOk result (self.new ≡ record self.old {
          monitors = self.old.monitors ++ unlocked ∷ [];
          fat = self.old.fat ++ false ∷ [];
        }) }
        ensures err { OnErr result (self.new ≡ self.old) }
    {
        self.words.push(LockWord::unlocked(0))?;
        Ok(())
    }

    /// At most so many locks become fat.
    pub fn limit(&self) -> u32
        ensures { result ≡ self.now.limit }
    {
        self.limit
    }

    /// Whether the monitor of an object is the same among others, and its lock is not inflated.
    #[inline]
    pub fn is_same_at(&self, other: &Monitors, object: u32) -> bool
        requires one { object < length self.now.monitors }
        requires other { object < length other.now.monitors }
        ensures { IsTrue result → monitor_at self.now.monitors object ≡ monitor_at other.now.monitors object }
    {
        let one = word_of(self.words.as_slice(), object).bits();
        let other = word_of(other.words.as_slice(), object).bits();
        one == other && one >> 31 == 0
    }

    /// What other monitors are, in the room of these. The only error is a want of memory.
    pub fn copied(self, other: &Monitors) -> Result<Monitors, AllocError>
        ensures { IfOk result (λ monitors. monitors ≡ other.now) }
    {
        let Monitors {
            mut words,
            table,
            limit: _limit,
        } = self;
        words.clear();
        words.extend_from_slice(other.words.as_slice())?;
        Ok(Monitors {
            words,
            table: table.copied(&other.table)?,
            limit: other.limit,
        })
    }

    /// How many objects have a monitor here.
    pub fn len(&self) -> usize
        ensures { result ≡ length self.now.monitors }
    {
        self.words.len()
    }

    /// Whether the lock of an object is inflated.
    pub fn is_fat(&self, object: u32) -> bool
        requires { object < length self.now.monitors }
        ensures { result ≡ is_fat_at self.now object }
    {
        matches!(lock_of(self.words.as_slice(), object), Lock::Fat(_))
    }

    /// The thread that owns the monitor of an object.
    pub fn owner(&self, object: u32) -> Option<u16>
        requires { object < length self.now.monitors }
        ensures { result ≡ (monitor_at self.now.monitors object).owner }
    {
        match lock_of(self.words.as_slice(), object) {
            Lock::Unlocked => None,
            Lock::Thin { owner, .. } => Some(owner),
            Lock::Fat(index) => self.table.owner(index),
        }
    }

    /// How often the owner of the monitor of an object has entered it.
    pub fn entries(&self, object: u32) -> u32
        requires { object < length self.now.monitors }
        ensures { result ≡ (monitor_at self.now.monitors object).count }
    {
        match lock_of(self.words.as_slice(), object) {
            Lock::Unlocked => 0,
            Lock::Thin { entries, .. } => u32::from(entries),
            Lock::Fat(index) => self.table.count(index),
        }
    }

    /// How many threads are in the wait set of an object.
    pub fn waiter_count(&self, object: u32) -> usize
        requires { object < length self.now.monitors }
        ensures { result ≡ length (monitor_at self.now.monitors object).waiters }
    {
        match lock_of(self.words.as_slice(), object) {
            Lock::Unlocked | Lock::Thin { .. } => 0,
            Lock::Fat(index) => self.table.waiter_count(index),
        }
    }

    /// The member of this number, in joining order from 0, of the wait set of an object.
    pub fn waiter(&self, object: u32, pick: usize) -> Option<Waiter>
        requires { object < length self.now.monitors }
        ensures { result ≡ slice_get (monitor_at self.now.monitors object).waiters pick }
    {
        match lock_of(self.words.as_slice(), object) {
            Lock::Unlocked | Lock::Thin { .. } => None,
            Lock::Fat(index) => self.table.waiter(index, pick),
        }
    }

    /// The members of the wait set of an object, in joining order.
    pub fn waiters(&self, alloc: Global, object: u32) -> Result<Vec<Waiter>, AllocError>
        requires { object < length self.now.monitors }
        ensures { IfOk result (λ v. v.items ≡ (monitor_at self.now.monitors object).waiters) }
    {
        match lock_of(self.words.as_slice(), object) {
            Lock::Unlocked | Lock::Thin { .. } => Ok(Vec::new(alloc)),
            Lock::Fat(index) => self.table.waiters(alloc, index),
        }
    }

    /// The thread enters once, where the monitor has no owner or is the thread's (JLS 17.1).
    pub fn enter(&mut self, object: u32, thread: u16) -> Result<MonitorAnswer, MonitorRefusal>
        requires { IsAllowed (Call.Enter object thread) self.old }
        ensures { Answers result (Call.Enter object thread) self.old self.new }
    {
        let mut word = word_of(self.words.as_slice(), object);
        match word.try_enter(thread) {
            TryEnter::Entered => {
                self.words[object as usize] = word;
                Ok(MonitorAnswer::Done)
            }
            TryEnter::Held => Ok(MonitorAnswer::Held),
            TryEnter::Full => {
                let index = next_index(&self.table, self.limit)?;
                self.table.add_owned(thread, 257)?;
                self.words[object as usize] = word.fat(index);
                Ok(MonitorAnswer::Done)
            }
            TryEnter::Fat(index) => self.table.enter(index, thread),
        }
    }

    /// The thread leaves once, if it is the owner.
    pub fn exit(&mut self, object: u32, thread: u16) -> MonitorAnswer
        requires { IsAllowed (Call.Exit object thread) self.old }
        ensures { Answers (Ok result) (Call.Exit object thread) self.old self.new }
    {
        let mut word = word_of(self.words.as_slice(), object);
        match word.try_exit(thread) {
            TryExit::Left => {
                self.words[object as usize] = word;
                MonitorAnswer::Done
            }
            TryExit::NotOwner => MonitorAnswer::NotOwner,
            TryExit::Fat(index) => self.table.exit(index, thread),
        }
    }

    /// The thread joins the wait set with its entries, and the monitor has no owner, if the thread is the owner (JLS
    /// 17.2.1).
    pub fn wait(&mut self, object: u32, thread: u16) -> Result<MonitorAnswer, MonitorRefusal>
        requires { IsAllowed (Call.Wait object thread) self.old }
        ensures { Answers result (Call.Wait object thread) self.old self.new }
    {
        let word = word_of(self.words.as_slice(), object);
        match word.lock() {
            Lock::Thin { owner, entries } if owner == thread => {
                let index = next_index(&self.table, self.limit)?;
                self.table.add_waiting(Waiter {
                    thread,
                    count: u32::from(entries),
                })?;
                self.words[object as usize] = word.fat(index);
                Ok(MonitorAnswer::Done)
            }
            Lock::Unlocked | Lock::Thin { .. } => Ok(MonitorAnswer::NotOwner),
            Lock::Fat(index) => Ok(self.table.wait(index, thread)?),
        }
    }

    /// The member of this number leaves the wait set, if the thread is the owner (JLS 17.2.2).
    pub fn notify(&mut self, object: u32, thread: u16, pick: u16) -> MonitorAnswer
        requires { IsAllowed (Call.Notify object thread pick) self.old }
        ensures { Answers (Ok result) (Call.Notify object thread pick) self.old self.new }
    {
        match lock_of(self.words.as_slice(), object) {
            Lock::Thin { owner, .. } if owner == thread => MonitorAnswer::Done,
            Lock::Unlocked | Lock::Thin { .. } => MonitorAnswer::NotOwner,
            Lock::Fat(index) => self.table.notify(index, thread, pick),
        }
    }

    /// All members leave the wait set, if the thread is the owner (JLS 17.2.2).
    pub fn notify_all(&mut self, object: u32, thread: u16) -> MonitorAnswer
        requires { IsAllowed (Call.NotifyAll object thread) self.old }
        ensures { Answers (Ok result) (Call.NotifyAll object thread) self.old self.new }
    {
        match lock_of(self.words.as_slice(), object) {
            Lock::Thin { owner, .. } if owner == thread => MonitorAnswer::Done,
            Lock::Unlocked | Lock::Thin { .. } => MonitorAnswer::NotOwner,
            Lock::Fat(index) => self.table.notify_all(index, thread),
        }
    }

    /// All members leave the wait set, whoever the owner is.
    pub fn wake_all(&mut self, object: u32)
        requires { IsAllowed (Call.WakeAll object) self.old }
        ensures { Answers (Ok MonitorAnswer.Done) (Call.WakeAll object) self.old self.new }
    {
        if let Lock::Fat(index) = lock_of(self.words.as_slice(), object) {
            self.table.wake_all(index);
        }
    }

    /// The thread leaves the wait set, if it is a member (JLS 17.2.3).
    pub fn interrupt(&mut self, object: u32, thread: u16)
        requires { IsAllowed (Call.Interrupt object thread) self.old }
        ensures { Answers (Ok MonitorAnswer.Done) (Call.Interrupt object thread) self.old self.new }
    {
        if let Lock::Fat(index) = lock_of(self.words.as_slice(), object) {
            self.table.interrupt(index, thread);
        }
    }

    /// The thread enters as often as it had when it joined the wait set, where the monitor has no owner (JLS 17.2.1).
    pub fn relock(&mut self, object: u32, thread: u16, count: u32) -> MonitorAnswer
        requires { IsAllowed (Call.Relock object thread count) self.old }
        ensures { Answers (Ok result) (Call.Relock object thread count) self.old self.new }
    {
        let word = word_of(self.words.as_slice(), object);
        match word.lock() {
            Lock::Unlocked => {
                self.words[object as usize] = word.thin(thread, count as u16);
                MonitorAnswer::Done
            }
            Lock::Thin { .. } => MonitorAnswer::Held,
            Lock::Fat(index) => self.table.relock(index, thread, count),
        }
    }
}

impl MonitorCalls for Monitors {
    ghost locks = { λ m. m };

    fn allows(&self, call: Call) -> bool {
        if self.len() <= call.object() as usize {
            return false;
        }
        match call {
            Call::Enter { thread, .. } | Call::Wait { thread, .. } => thread < MOST_THREADS,
            Call::Relock {
                object,
                thread,
                count,
            } => thread < MOST_THREADS && 0 < count && (count <= 256 || self.is_fat(object)),
            _ => true,
        }
    }

    fn apply(&mut self, call: Call) -> Result<MonitorAnswer, MonitorRefusal> {
        match call {
            Call::Enter { object, thread } => self.enter(object, thread),
            Call::Exit { object, thread } => Ok(self.exit(object, thread)),
            Call::Wait { object, thread } => self.wait(object, thread),
            Call::Notify {
                object,
                thread,
                pick,
            } => Ok(self.notify(object, thread, pick)),
            Call::NotifyAll { object, thread } => Ok(self.notify_all(object, thread)),
            Call::WakeAll { object } => {
                self.wake_all(object);
                Ok(MonitorAnswer::Done)
            }
            Call::Interrupt { object, thread } => {
                self.interrupt(object, thread);
                Ok(MonitorAnswer::Done)
            }
            Call::Relock {
                object,
                thread,
                count,
            } => Ok(self.relock(object, thread, count)),
        }
    }
}
