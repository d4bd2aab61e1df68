//! What threads share, copied.

ghost use Rattle.std.specs.Prelude.{◌≡◌, IfOk};
ghost use Rattle.kept_states.specs.States.{AreTheSame};

use machine_state::Shared;
use std::alloc::{AllocError, Global};
use thread_stacks::ThreadStack;

/// The stacks of another state, in the room of these.
fn copied_stacks(
    alloc: Global,
    stacks: Vec<ThreadStack>,
    others: &[ThreadStack],
) -> Result<Vec<ThreadStack>, AllocError>
    ensures { IfOk result (λ copies. copies.items ≡ others.now) }
{
    let mut room = stacks;
    room.reverse();
    let mut copies = Vec::with_capacity(alloc, others.len())?;
    'stacks: for other in others {
        let stack = match room.pop() {
            Some(stack) => stack,
            None => ThreadStack::new(alloc),
        };
        copies.push(stack.copied(other)?)?;
    }
    Ok(copies)
}

/// What threads share in another state, in the room of what they share in this one. The only error is a want of
/// memory.
pub fn copied(alloc: Global, shared: Shared, other: &Shared) -> Result<Shared, AllocError>
    ensures { IfOk result (λ s. AreTheSame other.now s) }
{
    let Shared {
        heap,
        mut statics,
        mut statuses,
        mut ready,
        threads,
        mut printed,
        mut interned,
        unnamed: _unnamed,
        stacks,
    } = shared;
    statics.clear();
    statics.extend_from_slice(other.statics.as_slice())?;
    statuses.clear();
    statuses.extend_from_slice(other.statuses.as_slice())?;
    ready.clear();
    ready.extend_from_slice(other.ready.as_slice())?;
    printed.clear();
    printed.extend_from_slice(other.printed.as_slice())?;
    interned.clear();
    interned.extend_from_slice(other.interned.as_slice())?;
    let heap = heap.copied(&other.heap)?;
    let threads = threads.copied(&other.threads)?;
    let stacks = copied_stacks(alloc, stacks, other.stacks.as_slice())?;
    Ok(Shared {
        heap,
        statics,
        statuses,
        ready,
        threads,
        printed,
        interned,
        unnamed: other.unnamed,
        stacks,
    })
}
