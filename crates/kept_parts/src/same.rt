//! Parts of two states, compared. What is found to be the same is; what is not found to be so may be the same.

ghost use Rattle.std.specs.Prelude.{◌≡◌, length, take, IsTrue};
ghost use Rattle.heap.specs.java_threads.Table.{thread_at};

use heap::are_same_words;
use heap::java_threads::Threads;
use thread_stacks::{Entry, ThreadStack};

fn is_same_entry(one: Entry, other: Entry) -> bool
    ensures { IsTrue result → one ≡ other }
{
    one.place == other.place
        && one.operands == other.operands
        && one.locals == other.locals
        && one.method == other.method
        && one.kind == other.kind
        && one.entered == other.entered
}

fn are_same_entries(one: &[Entry], other: &[Entry]) -> bool
    ensures { IsTrue result → one.now ≡ other.now }
{
    let count = one.len();
    if other.len() != count {
        return false;
    }
    'entries: for place in 0..count {
        if !is_same_entry(one[place], other[place]) {
            return false;
        }
    }
    true
}

/// Whether two stacks are the same.
pub fn is_same_stack(one: &ThreadStack, other: &ThreadStack) -> bool
    ensures { IsTrue result → one.now ≡ other.now }
{
    are_same_words(&one.words[..one.used], &other.words[..other.used])
        && are_same_entries(one.entries.as_slice(), other.entries.as_slice())
}

/// Whether a thread is the same in two tables, but for its stack.
pub fn is_same_thread(one: &Threads, other: &Threads, thread: u16) -> bool
    ensures { IsTrue result → thread_at one.now.threads thread ≡ thread_at other.now.threads thread }
{
    one.status(thread) == other.status(thread)
        && one.pending(thread) == other.pending(thread)
        && one.begun(thread) == other.begun(thread)
        && one.interrupted(thread) == other.interrupted(thread)
        && one.object(thread) == other.object(thread)
}
