//! Vector clocks (Fidge 1988, Mattern 1988): for each thread a time, 0 where none is set.
//!
//! # Proved
//!
//! - Of one clock: `time` is what was set; `grow` and `reach` change no time and make the room that they are asked for;
//!   `set` sets one time; `join` makes each time the later one of both; after `reset` each is 0.
//! - Of a list of clocks: `make_clock`, `make_join` and `make_release` change no time, and make the clock and the room
//!   that they are asked for. `join_clock`, `stamp_clock` and `reset_clock` do to one clock of it what they say, and
//!   leave the others.

ghost use Rattle.std.specs.Prelude.{◌≡◌, ℕ, ◌<◌, ◌≤◌, List, [], OnOk, length, max, slice_index, slice_index_or, slice_set};
ghost use Rattle.race_detection.specs.vector_clocks.Times.{AreAsLong, AreSameTimes, HasRoom, IsRaised, IsReset, IsStamped, time_in};

use std::alloc::{AllocError, Global};
use std::marker::Model;

#[derive(Drop)]
pub struct Clock {
    times: Vec<u64>,
}

impl Model for Clock {
    ghost Value = { List ℕ };

    ghost view = { λ c. c.times.items };
}

impl Clock {
    /// A clock with no time set.
    pub fn new(alloc: Global) -> Clock
        ensures none { result ≡ [] }
    {
        Clock {
            times: Vec::new(alloc),
        }
    }

    /// For how many threads there is room.
    pub fn len(&self) -> usize
        ensures { result ≡ length self.now }
    {
        self.times.len()
    }

    /// The time of a thread.
    pub fn time(&self, thread: usize) -> u64
        ensures { result ≡ slice_index self.now thread }
    {
        if thread < self.times.len() {
            self.times[thread]
        } else {
            0
        }
    }

    /// Makes room for so many threads.
    pub fn grow(&mut self, threads: usize) -> Result<(), AllocError>
        ensures same { (t : ℕ) → slice_index self.new t ≡ slice_index self.old t }
        ensures room { OnOk result (threads ≤ length self.new) }
        ensures longer { length self.old ≤ length self.new }
    {
        'room: while self.times.len() < threads {
            self.times.push(0)?;
        }
        Ok(())
    }

    /// Makes room for a thread.
    pub fn reach(&mut self, thread: usize) -> Result<(), AllocError>
        ensures same { (t : ℕ) → slice_index self.new t ≡ slice_index self.old t }
        ensures room { OnOk result (thread < length self.new) }
        ensures longer { length self.old ≤ length self.new }
    {
        'room: while self.times.len() <= thread {
            self.times.push(0)?;
        }
        Ok(())
    }

    /// Sets the time of a thread.
    pub fn set(&mut self, thread: usize, time: u64)
        requires { thread < length self.old }
        ensures { self.new ≡ slice_set self.old thread time }
    {
        self.times[thread] = time;
    }

    /// Each time is the later one of both.
    pub fn join(&mut self, other: &Clock)
        requires { length other.now ≤ length self.old }
        ensures joined { (t : ℕ) → slice_index self.new t ≡ max (slice_index self.old t) (slice_index other.now t) }
        ensures len { length self.new ≡ length self.old }
    {
        'threads: for (t, time) in other.times.iter().enumerate() {
            if self.times[t] < *time {
                self.times[t] = *time;
            }
        }
    }

    /// No time is set any more.
    pub fn reset(&mut self)
        ensures none { (t : ℕ) → slice_index self.new t ≡ 0 }
        ensures len { length self.new ≡ length self.old }
    {
        'threads: for time in self.times.iter_mut() {
            *time = 0;
        }
    }
}

/// The time of a thread in the clock of this number.
pub fn time_of(clocks: &[Clock], index: usize, thread: usize) -> u64
    ensures { result ≡ time_in clocks.now index thread }
{
    if index < clocks.len() {
        clocks[index].time(thread)
    } else {
        0
    }
}

/// Makes clocks up to this number, with no time set.
pub fn make_clock(alloc: Global, clocks: &mut Vec<Clock>, index: usize) -> Result<(), AllocError>
    ensures same { AreSameTimes clocks.old.items clocks.new.items }
    ensures room { OnOk result (index < length clocks.new.items) }
    ensures longer { length clocks.old.items ≤ length clocks.new.items }
{
    'made: while clocks.len() <= index {
        clocks.push(Clock::new(alloc))?;
    }
    Ok(())
}

/// Makes the clock of this number, with room for the times of a clock of another list.
pub fn make_join(
    alloc: Global,
    clocks: &mut Vec<Clock>,
    index: usize,
    others: &[Clock],
    other: usize,
) -> Result<(), AllocError>
    ensures same { AreSameTimes clocks.old.items clocks.new.items }
    ensures made { OnOk result (index < length clocks.new.items) }
    ensures room { OnOk result (HasRoom clocks.new.items index (slice_index_or others.now other [])) }
{
    make_clock(alloc, clocks, index)?;
    if other < others.len() {
        clocks[index].grow(others[other].len())?;
    }
    Ok(())
}

/// Makes the clock of this number, with room for the times of a clock of another list and for a thread.
pub fn make_release(
    alloc: Global,
    clocks: &mut Vec<Clock>,
    index: usize,
    others: &[Clock],
    thread: usize,
) -> Result<(), AllocError>
    ensures same { AreSameTimes clocks.old.items clocks.new.items }
    ensures made { OnOk result (index < length clocks.new.items) }
    ensures room { OnOk result (HasRoom clocks.new.items index (slice_index_or others.now thread [])) }
    ensures thread { OnOk result (thread < length (slice_index_or clocks.new.items index [])) }
{
    make_join(alloc, clocks, index, others, thread)?;
    clocks[index].reach(thread)
}

/// Joins a clock of another list to one of these.
pub fn join_clock(clocks: &mut Vec<Clock>, index: usize, others: &[Clock], other: usize)
    requires made { index < length clocks.old.items }
    requires room { HasRoom clocks.old.items index (slice_index_or others.now other []) }
    ensures raised { IsRaised clocks.old.items clocks.new.items index (time_in others.now other) }
    ensures room { AreAsLong clocks.old.items clocks.new.items }
{
    if other < others.len() {
        clocks[index].join(&others[other]);
    }
}

/// Sets the time of a thread in the clock of this number.
pub fn stamp_clock(clocks: &mut Vec<Clock>, index: usize, thread: usize, time: u64)
    requires made { index < length clocks.old.items }
    requires room { thread < length (slice_index_or clocks.old.items index []) }
    ensures stamped { IsStamped clocks.old.items clocks.new.items index thread time }
{
    clocks[index].set(thread, time);
}

/// Sets no time of the clock of this number any more.
pub fn reset_clock(clocks: &mut Vec<Clock>, index: usize)
    ensures reset { IsReset clocks.old.items clocks.new.items index }
    ensures room { AreAsLong clocks.old.items clocks.new.items }
{
    if index < clocks.len() {
        clocks[index].reset();
    }
}
