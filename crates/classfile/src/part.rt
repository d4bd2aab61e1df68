//! What stands in a table: a count, and so many parts.

ghost use Rattle.std.specs.Prelude.{◌≡◌, ℕ, List, map};
ghost use Rattle.model.specs.Tree.{Entry};
ghost use Rattle.classfile.specs.declared.part.Owner.{Owner};
ghost use Rattle.constant_pool.specs.reading.Input.{Input};
ghost use Rattle.constant_pool.specs.reading.Reading.{Gives, Read, number_at, times_at, table_at};

use constant_pool::Pool;
use constant_pool::reading::{Reader, Stop};
use std::alloc::Global;

/// To what a table belongs.
#[derive(Clone, Copy)]
pub(crate) enum Owner {
    Class,
    StaticField,
    InstanceField,
    Method,
    Code,
}

/// What is read from the front of bytes.
pub(crate) trait Part: Sized + Drop {
    /// It, without where it lies in memory.
    ghost Tree: { Type 0 };

    ghost view: { Self → Tree };

    ghost read_at: { List Entry → Owner → Input → Read Tree };

    fn read(alloc: Global, pool: &Pool, owner: Owner, reader: &mut Reader<'_>) -> Result<Self, Stop>
        ensures { Gives (λ x. (view x, reader.new)) result (read_at pool.now owner reader.old) };
}

impl Part for u16 {
    ghost Tree = { ℕ };

    ghost view = { λ n. n };

    ghost read_at = { λ _ _ i. number_at 2 i };

    fn read(
        _alloc: Global,
        _pool: &Pool,
        _owner: Owner,
        reader: &mut Reader<'_>,
    ) -> Result<Self, Stop> {
        reader.u2()
    }
}

/// So many parts.
fn read_times<T: Part>(
    alloc: Global,
    pool: &Pool,
    owner: Owner,
    count: u16,
    reader: &mut Reader<'_>,
) -> Result<Vec<T>, Stop>
    ensures { Gives (λ x.
        (map T.view x.items, reader.new)) result (times_at (T.read_at pool.now owner) count reader.old) }
{
    let mut parts = Vec::new(alloc);
    'parts: for _ in 0..count {
        parts.push(T::read(alloc, pool, owner, reader)?)?;
    }
    Ok(parts)
}

/// A count, and so many parts.
#[tactic(auto, unfolding(constant_pool::specs::reading::Reading::table_at))]
pub(crate) fn read_table<T: Part>(
    alloc: Global,
    pool: &Pool,
    owner: Owner,
    reader: &mut Reader<'_>,
) -> Result<Vec<T>, Stop>
    ensures { Gives (λ x. (map T.view x.items, reader.new)) result (table_at (T.read_at pool.now owner) reader.old) }
{
    let count = reader.u2()?;
    read_times(alloc, pool, owner, count, reader)
}
