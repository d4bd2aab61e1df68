//! A stack copied.

ghost use Rattle.std.specs.Prelude.{◌≡◌, IfOk};

use crate::stack::ThreadStack;
use std::alloc::AllocError;

impl ThreadStack {
    /// What another stack is, in the room of this one. The only error is a want of memory.
    pub fn copied(self, other: &ThreadStack) -> Result<ThreadStack, AllocError>
        ensures { IfOk result (λ stack. stack ≡ other.now) }
    {
        let ThreadStack {
            mut words,
            used: _used,
            mut entries,
            frames: _frames,
        } = self;
        words.clear();
        words.extend_from_slice(&other.words[..other.used])?;
        entries.clear();
        entries.extend_from_slice(other.entries.as_slice())?;
        Ok(ThreadStack {
            words,
            used: other.used,
            entries,
            frames: other.frames,
        })
    }
}
