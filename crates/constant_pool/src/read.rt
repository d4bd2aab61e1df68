//! Reading a constant pool from the bytes of a class file.

ghost use Rattle.std.specs.Prelude.{◌≡◌, ◌-◌, ◌&&◌, not, IsTrue, IfOk};
ghost use Rattle.std.specs.List.{list_all};
ghost use Rattle.model.specs.Spelling.{is_text_byte, is_wide};
ghost use Rattle.constant_pool.specs.reading.Input.{Input};
ghost use Rattle.constant_pool.specs.reading.Reading.{Gives, pair_at};
ghost use Rattle.constant_pool.specs.View.{entry_of, entries_of};
ghost use Rattle.constant_pool.specs.PoolReading.{is_wide_tag, utf8_at, body_at, entry_at, entries_at, pool_at};

use crate::constant::Constant;
use crate::pool::Pool;
use crate::reading::{Cause, Malformed, Reader, Stop};
use std::alloc::Global;

/// Whether the bytes may stand in a Utf8.
fn is_text(text: &[u8]) -> bool
    ensures { result ≡ list_all is_text_byte text.now }
{
    text.iter().all(|&b| 0 < b && b < 0xf0)
}

#[tactic(auto, unfolding(crate::specs::PoolReading::utf8_at))]
fn read_utf8(alloc: Global, reader: &mut Reader<'_>) -> Result<Vec<u8>, Stop>
    ensures { Gives (λ text. (text.items, reader.new)) result (utf8_at reader.old) }
{
    let len = reader.u2()?;
    let fault = reader.fault(Cause::Utf8);
    let text = reader.bytes(len as usize)?;
    if !is_text(text) {
        return Err(fault);
    }
    Ok(Vec::from_slice(alloc, text)?)
}

#[tactic(auto, unfolding(crate::specs::reading::Reading::pair_at))]
fn read_pair(reader: &mut Reader<'_>) -> Result<(u16, u16), Stop>
    ensures { Gives (λ x. (x, reader.new)) result (pair_at reader.old) }
{
    let first = reader.u2()?;
    Ok((first, reader.u2()?))
}

/// What stands behind the tag of an entry (JVMS table 4.4-A) that begins at the offset `start`.
#[tactic(auto, unfolding(crate::specs::PoolReading::body_at))]
fn read_body(
    alloc: Global,
    start: usize,
    tag: u8,
    reader: &mut Reader<'_>,
) -> Result<Constant, Stop>
    ensures read { (i : Input) → i.at ≡ start
        → Gives (λ x. (entry_of x, reader.new)) result (body_at i tag reader.old) }
    ensures wide { IfOk result (λ x. is_wide (entry_of x) ≡ is_wide_tag tag) }
{
    match tag {
        1 => Ok(Constant::Utf8(read_utf8(alloc, reader)?)),
        3 => Ok(Constant::Integer(reader.u4()?)),
        4 => Ok(Constant::Float(reader.u4()?)),
        5 => Ok(Constant::Long(reader.u8()?)),
        6 => Ok(Constant::Double(reader.u8()?)),
        7 => Ok(Constant::Class { name: reader.u2()? }),
        8 => Ok(Constant::String { text: reader.u2()? }),
        9 => {
            let (class, name_and_type) = read_pair(reader)?;
            Ok(Constant::Field {
                class,
                name_and_type,
            })
        }
        10 => {
            let (class, name_and_type) = read_pair(reader)?;
            Ok(Constant::Method {
                class,
                name_and_type,
            })
        }
        11 => {
            let (class, name_and_type) = read_pair(reader)?;
            Ok(Constant::InterfaceMethod {
                class,
                name_and_type,
            })
        }
        12 => {
            let (name, descriptor) = read_pair(reader)?;
            Ok(Constant::NameAndType { name, descriptor })
        }
        _ => Err(Stop::Fault(Malformed {
            cause: Cause::Tag,
            offset: start,
        })),
    }
}

/// An entry. The last place has no room for one that takes two.
#[tactic(auto, unfolding(crate::specs::PoolReading::entry_at))]
fn read_constant(alloc: Global, is_last: bool, reader: &mut Reader<'_>) -> Result<Constant, Stop>
    ensures read { Gives (λ x. (entry_of x, reader.new)) result (entry_at is_last reader.old) }
    ensures wide { IfOk result (λ x. IsTrue (not (is_last && is_wide (entry_of x)))) }
{
    let start = reader.at();
    let fault = reader.fault(Cause::Tag);
    let tag = reader.u1()?;
    if is_last && matches!(tag, 5 | 6) {
        return Err(fault);
    }
    read_body(alloc, start, tag, reader)
}

/// The entries of so many places.
fn read_constants(
    alloc: Global,
    places: u16,
    reader: &mut Reader<'_>,
) -> Result<Vec<Constant>, Stop>
    ensures { Gives (λ x. (entries_of x.items, reader.new)) result (entries_at places reader.old) }
{
    let mut constants = Vec::new(alloc);
    let mut left = places;
    'places: while left > 0 {
        let constant = read_constant(alloc, left == 1, reader)?;
        if constant.is_wide() {
            constants.push(constant)?;
            constants.push(Constant::Unusable)?;
            left -= 2;
        } else {
            constants.push(constant)?;
            left -= 1;
        }
    }
    Ok(constants)
}

impl Pool {
    /// The pool that stands at a reader's place. The reader is moved behind it.
    #[tactic(auto, unfolding(crate::specs::PoolReading::pool_at))]
    pub fn read(alloc: Global, reader: &mut Reader<'_>) -> Result<Pool, Stop>
        ensures { Gives (λ pool. (pool, reader.new)) result (pool_at reader.old) }
    {
        let fault = reader.fault(Cause::Truncated);
        let count = reader.u2()?;
        if count == 0 {
            return Err(fault);
        }
        Ok(Pool::new(read_constants(alloc, count - 1, reader)?))
    }
}
