//! The monitors of objects (JLS 17.1, 17.2), one lock word an object. A lock becomes fat, with a record of its own in
//! a table, at its owner's 257th entry and where a thread joins its wait set, and stays so.
//!
//! # Proved
//!
//! - Of each call of `Monitors` (`enter`, `exit`, `wait`, `notify`, `notify_all`, `wake_all`, `interrupt`, `relock`) by
//!   cases on the answer (`Answers`):
//!   - done: it answers and leaves what the plain monitors of the definitions do, and makes fat the lock of an owner's
//!     257th entry or of an owner's wait, and no other; it was not one that has to be refused for a full table or
//!     count;
//!   - refused: the table of fat locks was full and needed one more (`Monitors`), or the count was (`LockCount`), or it
//!     takes memory (`Memory`); nothing changed. Neither does a call change anything that answers that another thread
//!     owns the monitor, or that the caller doesn't.
//! - The caller keeps (`IsAllowed`): the object is there, a thread that enters or waits is below 32,767, and one that
//!   enters again after a wait has a count that the lock can have. `allows` tells whether it is so.
//! - The getters show the plain monitors, and which locks are fat. `owner`, `entries`, `waiters` and `is_fat` ask that
//!   the object is there, and `waiters` alone takes memory. `add` puts one more monitor, without an owner, behind the
//!   others, and for want of memory changes nothing.
//!
//! # Wrong bodies
//!
//! - `monitor-wait-releases-one`: a wait leaves one entry, and not all; refused by `after` of `wait`: the plain
//!   monitor's.
//! - `monitor-wakes-another`: a notify wakes another member than the one picked; refused by `after` of `notify`.
//! - `monitor-fat-at-first-entry`, `lock_word-fat-at-first-entry`: a lock is fat at its first entry; refused by
//!   `Answers` of `enter` (`fat`); `answer` of `try_enter`.
//! - `monitor-inflation-loses-owner`, `lock_word-fat-loses-low-byte`: a lock that becomes fat loses its owner, or its
//!   low byte; refused by `Answers` of `enter` (`monitors`); the contract of `fat`.
//! - Planted by `rt plant`: 51 functions, 2 untried; 118 bodies judged, 2 not judged, 137 not run; proved 1: the real
//!   one.

mod call;
mod monitors;
mod records;
mod refusal;
mod table;
mod waiter;

pub use call::{Call, MonitorCalls};
pub use monitors::Monitors;
pub use refusal::MonitorRefusal;
pub use waiter::Waiter;
