//! Whether class files name methods whose edges of happens-before are this machine's own.

ghost use Rattle.std.specs.Prelude.{◌≡◌, false, slice_get};
ghost use Rattle.std.specs.List.{list_any};
ghost use Rattle.std.specs.Option.{option_map_or};
ghost use Rattle.constant_pool.specs.View.{entry_of};
ghost use Rattle.search.specs.OwnEdges as spec;
ghost use Rattle.class_tree.specs.View.{file_of};

use class_tree::ClassFile;
use constant_pool::{Constant, Pool};
use hierarchy::ClassSet;
use linker::Linked;

/// Whether a method of this name tells whether a thread was started, or interrupts it, or tells whether it is
/// interrupted.
fn has_own_edges(name: &[u8]) -> bool
    ensures { result ≡ spec.has_own_edges name.now }
{
    name == b"isAlive".as_slice()
        || (name == b"interrupt".as_slice()
            || (name == b"isInterrupted".as_slice() || name == b"interrupted".as_slice()))
}

/// Whether a constant of a pool is a Methodref with such a name.
fn is_own_edge(pool: &Pool, constant: &Constant) -> bool
    ensures { result ≡ spec.is_own_edge pool.now (entry_of constant.now) }
{
    match constant {
        Constant::Method { name_and_type, .. } => match pool.name_and_type(*name_and_type) {
            Some(named) => has_own_edges(named.name),
            None => false,
        },
        _ => false,
    }
}

/// Whether one of the constants of a pool is such one.
fn any_is_own_edge(pool: &Pool, constants: &[Constant]) -> bool
    ensures { result ≡ list_any (λ c. spec.is_own_edge pool.now (entry_of c)) constants.now }
{
    constants.iter().any(|constant| is_own_edge(pool, constant))
}

/// Whether a class file has such a constant.
fn names_own_edge(file: &ClassFile) -> bool
    ensures { result ≡ spec.names_own_edge (file_of file.now) }
{
    any_is_own_edge(&file.pool, file.pool.constants())
}

/// Whether the class file of a number has, if there is one.
fn is_naming(set: &ClassSet, number: usize) -> bool
    ensures { result ≡ option_map_or spec.names_own_edge (slice_get set.now number) false }
{
    match set.file_at(number) {
        Some(file) => names_own_edge(file),
        None => false,
    }
}

/// Whether one of the class files has.
pub(crate) fn names_own_edges(linked: &Linked) -> bool
    ensures { result ≡ spec.names_own_edges linked.now }
{
    let set = linked.set();
    let count = set.file_count();
    'files: for number in 0..count {
        if is_naming(set, number) {
            return true;
        }
    }
    false
}
