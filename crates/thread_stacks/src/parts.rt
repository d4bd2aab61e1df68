//! The parts of a stack as they are kept, and a stack that is made of such parts again.

ghost use Rattle.std.specs.Prelude.{◌≡◌, length, IfSome};
ghost use Rattle.thread_stacks.specs.Stacks.{shown};

use crate::entry::Entry;
use crate::stack::ThreadStack;

impl ThreadStack {
    /// The stack of these entries, the top last, over these words, if the entries have as many.
    pub fn of_parts(entries: Vec<Entry>, words: Vec<u32>) -> Option<ThreadStack>
        ensures { IfSome result (λ stack. stack ≡ shown (length words.items) words.items entries.items) }
    {
        let used = words.len();
        let mut left = used;
        let mut frames = 0;
        'entries: for entry in entries.as_slice() {
            left = left.checked_sub(entry.locals)?;
            left = left.checked_sub(entry.operands)?;
            frames += entry.frames();
        }
        if left != 0 {
            return None;
        }
        Some(ThreadStack {
            words,
            used,
            entries,
            frames,
        })
    }
}
