//! The indices of a constant pool.

ghost use Rattle.std.specs.Prelude.{◌≡◌, ◌<◌, ◌≤◌, Some, length};
ghost use Rattle.model.specs.Tree.{FileTree};
ghost use Rattle.hierarchy.specs.Places.{class_at};
ghost use Rattle.linker.specs.Linking.{IsLinked};

use linker::Linked;

/// One more than the last index of the constant pool of the class at a place.
pub(crate) fn index_count(linked: &Linked, class: usize) -> usize
    ensures linked { IsLinked linked.now }
    ensures few { result ≤ 0x10000 }
    ensures all { (file : FileTree) → class_at linked.now class ≡ Some file → length file.pool < result }
{
    match linked.set().class_at(class) {
        Some(file) => (file.pool.constants().len() + 1).min(0x1_0000),
        None => 0,
    }
}
