//! The table of threads.

ghost use Rattle.std.specs.Prelude.{◌≡◌, ◌<◌, ◌≤◌, [], ◌∷◌, ◌++◌, ◌↔◌, length, IfOk, IfSome, IsTrue};
ghost use Rattle.model.specs.State.{new_thread};
ghost use Rattle.heap.specs.java_threads.Statuses.{status_of};
ghost use Rattle.heap.specs.java_threads.Table.{thread_at, number_of, with_thread, IsWithin, IsAdded};

use crate::java_threads::refusal::ThreadRefusal;
use crate::java_threads::status::ThreadStatus;
use crate::java_threads::thread::Thread;
use std::alloc::{AllocError, Global};
use std::marker::Model;

/// The threads by their numbers, main first and then in starting order: all of each but its stack. There are never
/// more of them than the limit says, main's included, and so each number is below 32,767.
///
/// A thread that is not there reads as the thread that the definitions give for it, and a write to it does nothing.
#[derive(Drop)]
pub struct Threads {
    threads: Vec<Thread>,
    limit: u32,
}

impl Model for Threads {
    ghost use Rattle.std.specs.Prelude.{◌≤◌, length};
    ghost use Rattle.heap.specs.java_threads.Table.{ThreadTable, IsWithin};

    ghost Value = { ThreadTable };

    ghost view = { λ t. record { threads = t.threads.items; limit = t.limit } };

    ghost invariant = { λ t. IsWithin (length t.threads.items) t.limit };
}

/// The thread of this number, or the one that stands for no thread.
fn thread_of(threads: &[Thread], thread: u16) -> Thread
    ensures { result ≡ thread_at threads.now thread }
{
    threads
        .get(usize::from(thread))
        .copied()
        .unwrap_or(Thread::new(0))
}

/// Where the thread of a Thread object stands.
fn position(threads: &[Thread], object: u32) -> Option<usize>
    ensures value { result ≡ number_of threads.now object }
    ensures there { IfSome result (λ at. at < length threads.now) }
{
    threads.iter().position(|thread| thread.object == object)
}

impl Threads {
    /// The table with main's thread alone, by its Thread object. The limit is 1 to 32,767.
    pub fn new(alloc: Global, limit: u32, object: u32) -> Result<Threads, AllocError>
        requires { IsWithin 1 limit }
        ensures { IfOk result (λ t. t ≡ record { threads = new_thread object ∷ []; limit = limit }) }
    {
        let mut threads = Vec::with_capacity(alloc, 1)?;
        threads.push_reserved(Thread::new(object));
        Ok(Threads { threads, limit })
    }

    /// How many threads there may be, main's included.
    pub fn limit(&self) -> u32
        ensures { result ≡ self.now.limit }
    {
        self.limit
    }

    /// What another table is, in the room of this one. The only error is a want of memory.
    pub fn copied(self, other: &Threads) -> Result<Threads, AllocError>
        ensures { IfOk result (λ threads. threads ≡ other.now) }
    {
        let Threads {
            mut threads,
            limit: _limit,
        } = self;
        threads.clear();
        threads.extend_from_slice(other.threads.as_slice())?;
        Ok(Threads {
            threads,
            limit: other.limit,
        })
    }

    /// How many threads there are, main's included: 1 to 32,767.
    pub fn len(&self) -> usize
        ensures length { result ≡ length self.now.threads }
        ensures within { IsWithin result self.now.limit }
    {
        self.threads.len()
    }

    /// Whether as many threads have been started as may be.
    pub fn is_full(&self) -> bool
        ensures { IsTrue result ↔ (self.now.limit ≤ length self.now.threads) }
    {
        self.limit as usize <= self.len()
    }

    /// A thread that was started, by its Thread object. It has not begun.
    pub fn add(&mut self, object: u32) -> Result<(), ThreadRefusal>
        ensures { IsAdded result object self.old self.new }
    {
        if self.is_full() {
            return Err(ThreadRefusal::Threads);
        }
        self.threads.reserve(1)?;
        self.threads.push_reserved(Thread::new(object));
        Ok(())
    }

    /// The number of the thread of a Thread object, the first where there are several.
    pub fn number(&self, object: u32) -> Option<u16>
        ensures { result ≡ number_of self.now.threads object }
    {
        let at = position(self.threads.as_slice(), object)?;
        Some(at as u16)
    }

    /// The Thread object of a thread.
    pub fn object(&self, thread: u16) -> u32
        ensures { result ≡ (thread_at self.now.threads thread).object }
    {
        thread_of(self.threads.as_slice(), thread).object
    }

    /// Whether a thread has begun.
    pub fn begun(&self, thread: u16) -> bool
        ensures { result ≡ (thread_at self.now.threads thread).begun }
    {
        thread_of(self.threads.as_slice(), thread).begun
    }

    /// The exception that is pending in a thread.
    pub fn pending(&self, thread: u16) -> Option<u32>
        ensures { result ≡ (thread_at self.now.threads thread).pending }
    {
        thread_of(self.threads.as_slice(), thread).pending
    }

    /// Whether a thread is interrupted.
    pub fn interrupted(&self, thread: u16) -> bool
        ensures { result ≡ (thread_at self.now.threads thread).interrupted }
    {
        thread_of(self.threads.as_slice(), thread).interrupted
    }

    /// What a thread is about.
    pub fn status(&self, thread: u16) -> ThreadStatus
        ensures { status_of result ≡ (thread_at self.now.threads thread).status }
    {
        thread_of(self.threads.as_slice(), thread).status
    }

    /// Writes a thread to its place.
    fn set(&mut self, thread: u16, value: Thread)
        ensures { self.new ≡ with_thread self.old thread value }
    {
        if let Some(place) = self.threads.get_mut(usize::from(thread)) {
            *place = value;
        }
    }

    pub fn set_begun(&mut self, thread: u16, begun: bool)
        ensures { self.new ≡ with_thread self.old thread
            (record (thread_at self.old.threads thread) { begun = begun }) }
    {
        let value = thread_of(self.threads.as_slice(), thread);
        self.set(thread, Thread { begun, ..value });
    }

    pub fn set_pending(&mut self, thread: u16, pending: Option<u32>)
        ensures { self.new ≡ with_thread self.old thread
            (record (thread_at self.old.threads thread) { pending = pending }) }
    {
        let value = thread_of(self.threads.as_slice(), thread);
        self.set(thread, Thread { pending, ..value });
    }

    pub fn set_interrupted(&mut self, thread: u16, interrupted: bool)
        ensures { self.new ≡ with_thread self.old thread
            (record (thread_at self.old.threads thread) { interrupted = interrupted }) }
    {
        let value = thread_of(self.threads.as_slice(), thread);
        self.set(
            thread,
            Thread {
                interrupted,
                ..value
            },
        );
    }

    pub fn set_status(&mut self, thread: u16, status: ThreadStatus)
        ensures { self.new ≡ with_thread self.old thread
            (record (thread_at self.old.threads thread) { status = status_of status }) }
    {
        let value = thread_of(self.threads.as_slice(), thread);
        self.set(thread, Thread { status, ..value });
    }
}
