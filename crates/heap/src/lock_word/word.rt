//! The bits of a lock word.

ghost use Rattle.std.specs.Prelude.{◌≡◌, ◌<◌, ◌≤◌, ◌^◌, ◌↔◌, IsSome, IfSome, Some, None};
ghost use Rattle.model.specs.BuiltInNumbers.{most_threads};
ghost use Rattle.heap.specs.lock_word.Words.{word_spelled, lock_bits, bits_of, SpellsWord, HasRoomFor};
ghost use Rattle.heap.specs.lock_word.Locking.{owner_of, entries_of, entering, lock_entered, leaving, lock_left};

use crate::lock_word::lock::{Lock, TryEnter, TryExit};
use std::marker::Model;

const LOW_BYTE: u32 = 0xff;

/// The most entries that a word counts (own).
const MOST_ENTRIES: u16 = 256;

/// The lock of an object in 32 bits, with a byte beside it that never changes.
///
/// Bit 31 is the shape. Of shape 0, bits 30 to 16 are the owner's number plus one, or 0 where no thread owns the
/// lock, and bits 15 to 8 are the owner's entries less one. Of shape 1, bits 30 to 8 are the number of the monitor.
/// Bits 7 to 0 are the byte beside the lock.
#[derive(Clone, Copy)]
pub struct LockWord {
    bits: u32,
}

impl Model for LockWord {
    ghost use Rattle.heap.specs.lock_word.Words.{Word, word_spelled, bits_of, SpellsWord};

    ghost Value = { Word };

    ghost view = { λ w. word_spelled w.bits };

    ghost invariant = { λ w. SpellsWord w.bits };

    ghost inverse = { λ w. record { bits = bits_of w } };
}

/// The lock's part of a word.
fn spelled(lock: Lock) -> u32
    requires { HasRoomFor lock }
    ensures { result ≡ lock_bits lock }
{
    match lock {
        Lock::Unlocked => 0,
        Lock::Thin { owner, entries } => ((u32::from(owner) + 1) << 16)
            + ((u32::from(entries) - 1) << 8),
        Lock::Fat(monitor) => (1 << 31) + (monitor << 8),
    }
}

impl LockWord {
    /// The word of these bits, or `None` where they count entries without an owner.
    pub fn new(bits: u32) -> Option<LockWord>
        ensures spelled { IsSome result ↔ SpellsWord bits }
        ensures value { IfSome result (λ w. w ≡ word_spelled bits) }
    {
        if bits < 1 << 8 || 1 << 16 <= bits {
            Some(LockWord { bits })
        } else {
            None
        }
    }

    /// The bits of the word.
    #[inline]
    pub fn bits(self) -> u32
        ensures { result ≡ bits_of self }
    {
        let LockWord { bits } = self;
        bits
    }

    /// What the lock says.
    pub fn lock(self) -> Lock
        ensures same { result ≡ self.lock }
        ensures fits { HasRoomFor result }
    {
        if self.bits >> 31 == 1 {
            return Lock::Fat((self.bits >> 8) & 0x7f_ffff);
        }
        let owner = self.bits >> 16;
        if owner == 0 {
            Lock::Unlocked
        } else {
            Lock::Thin {
                owner: (owner - 1) as u16,
                entries: ((self.bits >> 8) & 0xff) as u16 + 1,
            }
        }
    }

    /// The word with this lock, and the same byte beside it.
    fn with(self, lock: Lock) -> LockWord
        requires { HasRoomFor lock }
        ensures { result ≡ record self { lock = lock } }
    {
        LockWord {
            bits: spelled(lock) + (self.bits & LOW_BYTE),
        }
    }

    /// An unlocked word with this byte beside the lock.
    pub fn unlocked(low_byte: u8) -> LockWord
        ensures { result ≡ record { lock = Lock.Unlocked; low_byte = low_byte } }
    {
        LockWord {
            bits: u32::from(low_byte),
        }
    }

    /// The word with a thin lock of this owner, a thread below 32,767, with 1 to 256 entries.
    pub fn thin(self, owner: u16, entries: u16) -> LockWord
        requires { HasRoomFor (Lock.Thin owner entries) }
        ensures { result ≡ record self { lock = Lock.Thin owner entries } }
    {
        self.with(Lock::Thin { owner, entries })
    }

    /// The word with a fat lock, of the monitor of this number below 8,388,608.
    pub fn fat(self, monitor: u32) -> LockWord
        requires { monitor < 2 ^ 23 }
        ensures { result ≡ record self { lock = Lock.Fat monitor } }
    {
        self.with(Lock::Fat(monitor))
    }

    /// The owner that the word names; of a fat lock its monitor knows it.
    pub fn owner(self) -> Option<u16>
        ensures { result ≡ owner_of self.lock }
    {
        match self.lock() {
            Lock::Thin { owner, .. } => Some(owner),
            Lock::Unlocked | Lock::Fat(_) => None,
        }
    }

    /// How many entries of its owner the word counts.
    pub fn entries(self) -> u16
        ensures { result ≡ entries_of self.lock }
    {
        match self.lock() {
            Lock::Thin { entries, .. } => entries,
            Lock::Unlocked | Lock::Fat(_) => 0,
        }
    }

    /// The thread, below 32,767, enters once, where the word can tell that it may and count it.
    pub fn try_enter(&mut self, thread: u16) -> TryEnter
        requires { thread < most_threads }
        ensures answer { result ≡ entering thread self.old.lock }
        ensures after { self.new ≡ record self.old { lock = lock_entered thread self.old.lock } }
        ensures fits { HasRoomFor self.new.lock }
    {
        match self.lock() {
            Lock::Unlocked => *self = self.thin(thread, 1),
            Lock::Thin { owner, .. } if owner != thread => return TryEnter::Held,
            Lock::Thin { entries, .. } if entries == MOST_ENTRIES => return TryEnter::Full,
            Lock::Thin { entries, .. } => *self = self.thin(thread, entries + 1),
            Lock::Fat(monitor) => return TryEnter::Fat(monitor),
        }
        TryEnter::Entered
    }

    /// The thread leaves once, where the word can tell that it owns the lock.
    pub fn try_exit(&mut self, thread: u16) -> TryExit
        ensures answer { result ≡ leaving thread self.old.lock }
        ensures after { self.new ≡ record self.old { lock = lock_left thread self.old.lock } }
    {
        match self.lock() {
            Lock::Unlocked => return TryExit::NotOwner,
            Lock::Thin { owner, .. } if owner != thread => return TryExit::NotOwner,
            Lock::Thin { entries: 1, .. } => *self = self.with(Lock::Unlocked),
            Lock::Thin { entries, .. } => *self = self.thin(thread, entries - 1),
            Lock::Fat(monitor) => return TryExit::Fat(monitor),
        }
        TryExit::Left
    }
}
