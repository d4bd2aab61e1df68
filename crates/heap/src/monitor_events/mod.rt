//! What events do to monitors and to the table of threads.
//!
//! # Proved
//!
//! Each contract is an equation of the definitions' own words: `with_entry`, `waiting`, `notified`, `all_woken`,
//! `with_end` and the like. It is about a world with the monitors of `heap` and the threads of `java_threads`
//! (`shared`), whatever else the world has. Objects, their words and the limits stay; so do, but for `enter` and
//! `wait`, the locks that are fat (`MonitorsBecome`, `ThreadsBecome`, `BothBecome`).
//!
//! - Of monitors: `may_enter` and `is_owner` tell what the definitions do; `enter` enters exactly where the thread may,
//!   or is refused as the call of `heap` is, and then nothing has changed; `exit` leaves once, and says whether the
//!   thread was the owner.
//! - Of wait sets: `wait` is `waiting` for the owner, or refused with nothing changed; `notify` is `notified` with its
//!   pick and `notify_all` is `notified_all`; of another thread than the owner these change nothing, and say so.
//!   `notify_all` takes no memory: a loop over the members (`wake_members`) is `all_woken`. `relock` enters again with
//!   the count and runs on exactly where nobody owns the monitor.
//! - Of threads: `interrupt` is `interrupted_in` with the thread's status; `set_interrupted` sets or clears the
//!   interrupt status; `is_started` and `is_alive` tell whether a thread of a Thread object was started, and whether
//!   one was and has not ended; `start` adds one where none was, or is refused as the table is; `end` ends a thread and
//!   wakes all that wait on its Thread object (`with_end`).
//! - The caller keeps: the object is there, a thread that enters or waits is below 32,767, a relock is allowed
//!   (`relocks_may_be_called` of `limits_at_words` says so of each thread that has left a wait set).
//! - Where `enter` or `wait` is done, no limit forbade it (`IsWithin`); where `start` is, there were fewer threads than
//!   the limit.
//!
//! # Wrong bodies
//!
//! - `monitor_events-wait-of-a-notified-thread-throws`: an interrupt of a thread that was notified makes its wait
//!   throw; refused by `BothBecome` of `interrupt`.
//! - Planted by `rt plant`: 17 functions, 0 untried; 82 bodies judged, 28 not judged, 0 not run; proved 1: `relock`
//!   answers false for 0 entries, which may not be asked.

mod ends;
mod entry;
mod lives;
mod waiting;
mod waking;

pub use ends::end;
pub use entry::{enter, exit, is_owner, may_enter};
pub use lives::{interrupt, is_alive, is_started, set_interrupted, start};
pub use waiting::{notify, relock, wait};
pub use waking::{notify_all, wake_members};
