//! Vectors that grow in two steps, so that what was there stays as it was until nothing can fail.

ghost use Rattle.std.specs.Prelude.{ℕ, ◌≡◌, ◌+◌, ◌<◌, ◌≤◌, ◌∷◌, ◌^◌, [], ◌++◌, IfOk, IfErr};
ghost use Rattle.std.specs.Vec.{vec_len, vec_capacity};
ghost use Rattle.machine_instructions.specs.thread_methods.Growth.{IsSpare};

use std::alloc::AllocError;

/// A larger vector with no items, where there is no room for so many more.
#[inline]
pub(crate) fn spare<T: Drop>(items: &Vec<T>, more: usize) -> Result<Option<Vec<T>>, AllocError>
    requires { more ≤ 2 ^ 63 }
    ensures larger { IfOk result (λ spare. IsSpare items.now more spare) }
    ensures needed { IfErr result (λ error. 0 < more) }
{
    let count = items.len();
    if more <= items.capacity() - count {
        return Ok(None);
    }
    let larger = Vec::with_capacity(
        *items.allocator(),
        count.saturating_add(count).saturating_add(more),
    )?;
    Ok(Some(larger))
}

/// Gives the items room: they move to the larger vector where there is one.
#[inline]
pub(crate) fn take_room<T: Drop>(items: &mut Vec<T>, spare: Option<Vec<T>>)
    requires { (more : ℕ) × IsSpare items.old more spare }
    ensures same { items.new.items ≡ items.old.items }
    ensures room { (more : ℕ) → IsSpare items.old more spare → vec_len items.new + more ≤ vec_capacity items.new }
{
    if let Some(mut larger) = spare {
        let _moved = larger.append(items);
        *items = larger;
    }
}

/// Adds an item behind the others, which move to the larger vector where there is one.
#[inline]
pub(crate) fn add<T: Drop>(items: &mut Vec<T>, spare: Option<Vec<T>>, item: T)
    requires { IsSpare items.old 1 spare }
    ensures { items.new.items ≡ items.old.items ++ item ∷ [] }
{
    take_room(items, spare);
    items.push_reserved(item);
}
