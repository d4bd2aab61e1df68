//! The lock of an object in one word of 32 bits: the owner and its entries as long as these fit, else the number of
//! the monitor that keeps them.
//!
//! # Proved
//!
//! - `new` takes exactly the words of 32 bits that spell a lock with a byte beside it, and gives both; `bits` is the
//!   word that spells them; `thin`, `fat` and `unlocked` make the lock that they are asked for with that byte; `owner`
//!   and `entries` are those of a thin lock, and none of another; `try_enter` and `try_exit` answer and leave what the
//!   definitions of entering and leaving say. The caller keeps: a thread that enters is below 32,767, and a lock that
//!   is made has room in a word.
//!
//! # Wrong bodies
//!
//! - `lock_word-count-wraps-at-256`: the count of a thin lock wraps at the 257th entry; refused by `after` of
//!   `try_enter`, and its `requires` on room.
//! - Planted by `rt plant`: 10 functions, 0 untried; 45 bodies judged, 0 not judged, 0 not run; proved 1: the real one.

mod lock;
mod word;

pub use lock::{Lock, TryEnter, TryExit};
pub use word::LockWord;
