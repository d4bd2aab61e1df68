//! Strings that a run makes, and their texts.

ghost use Rattle.std.specs.Prelude.{◌≡◌, ◌+◌, ◌<◌, ◌≤◌, ℕ, length, slice_get, OnOk, IfErr};
ghost use Rattle.heap.specs.Heap.{made, with_object, IsNotExtended, IsRefused};
ghost use Rattle.machine_state.specs.allocations.Allocated.{string_of};
ghost use Rattle.machine_state.specs.allocations.Filled.{is_unfilled, filled};

use heap::{AllocRefusal, Heap, ObjectKind};
use model::built_in::STRING;

/// The limit that stands where more cells are wanted than a heap may have.
fn full(heap: &Heap) -> AllocRefusal
    ensures { (count : ℕ) → heap.now.cell_limit < count → IsRefused result count heap.now heap.now }
{
    if heap.len().saturating_sub(heap.opening()) < heap.object_limit() {
        AllocRefusal::Cells
    } else {
        AllocRefusal::Objects
    }
}

/// A new String with these units, where no limit stands. A refusal says which limit stands, or that there was no
/// memory; nothing has changed then.
pub(crate) fn add_string(heap: &mut Heap, units: &[u32]) -> Result<(), AllocRefusal>
    ensures ok { OnOk result (heap.new ≡ with_object heap.old (string_of units.now) (length units.now)) }
    ensures opened { OnOk result (heap.old.opening ≤ length heap.old.objects) }
    ensures objects { OnOk result (made heap.old < heap.old.object_limit) }
    ensures cells { OnOk result (heap.old.counted + length units.now ≤ heap.old.cell_limit) }
    ensures err { IfErr result (λ refusal. IsRefused refusal (length units.now) heap.old heap.new) }
{
    if units.len() > heap.cell_limit() as usize {
        return Err(full(heap));
    }
    heap.add_words(
        ObjectKind::Instance {
            class: STRING as u32,
        },
        units,
        units.len() as u32,
    )
}

/// Whether an object was made in the run, and is a String without units.
fn is_unfilled(heap: &Heap, object: u32) -> bool
    ensures { result ≡ is_unfilled heap.now object }
{
    if object < heap.opening() {
        return false;
    }
    match heap.class_of(object) {
        Some(ObjectKind::Instance { class }) => class == STRING as u32 && heap.length(object) == 0,
        _ => false,
    }
}

/// A String of the run that has no units gets these, which count as cells; another object stays. A refusal says that
/// the limit on cells stands, or that there was no memory; nothing has changed then.
pub(crate) fn fill_string(heap: &mut Heap, object: u32, units: &[u32]) -> Result<(), AllocRefusal>
    ensures ok { OnOk result (heap.new ≡ filled heap.old object units.now) }
    ensures cells { OnOk result (heap.old.counted + length units.now ≤ heap.old.cell_limit) }
    ensures err { IfErr result (λ refusal. IsNotExtended refusal (length units.now) heap.old heap.new) }
{
    let counted = heap.counted();
    let limit = heap.cell_limit();
    if counted > limit {
        return Err(AllocRefusal::Cells);
    }
    if units.len() > (limit - counted) as usize {
        return Err(AllocRefusal::Cells);
    }
    if is_unfilled(heap, object) {
        heap.extend(object, units)?;
    }
    Ok(())
}
