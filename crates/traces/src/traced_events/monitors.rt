//! Monitors and wait sets (JLS 17.1, 17.2).

use crate::traced_events::deed::Entries;
use heap::Heap;
use std::alloc::AllocError;

/// How often a thread has entered the monitor of an object.
pub(crate) fn entries_of(heap: &Heap, object: u32, thread: u16) -> Entries {
    let count = if object < heap.len() && heap.owner(object) == Some(thread) {
        heap.entries(object)
    } else {
        0
    };
    Entries { object, count }
}

/// The threads in the wait set of the object of a word, in the order in which they joined, are put into a list.
pub(crate) fn waiting_on(heap: &Heap, word: u32, threads: &mut Vec<u16>) -> Result<(), AllocError> {
    let Some(object) = word.checked_sub(1) else {
        return Ok(());
    };
    if object >= heap.len() {
        return Ok(());
    }
    for pick in 0..heap.waiter_count(object) {
        if let Some(waiter) = heap.waiter(object, pick) {
            threads.push(waiter.thread)?;
        }
    }
    Ok(())
}
