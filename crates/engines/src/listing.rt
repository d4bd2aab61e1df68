//! The listings of class files, over any readers and writer.

ghost use Rattle.std.specs.Prelude.{◌≡◌, ◌+◌, IfOk, IfErr, map, sum_by};
ghost use Rattle.std.specs.Io.KnownBytes.{Appends};
ghost use Rattle.engines.specs.Engines.{CountsFailure};
ghost use Rattle.engines.specs.Listings.{IsUnlisted, Lists};

use crate::class_files::read_class_files;
use crate::fault::Fault;
use crate::status::Status;
use listings::class_listings::{decode_files, list_files};
use model::{Sink, Source};
use std::alloc::Global;

/// Writes the listings of the class files, one behind the other, and answers the status of what is done.
///
/// Nothing is written where a file can't be read or is refused.
pub fn disasm_engine<S: Source, W: Sink>(
    alloc: Global,
    files: &mut [S],
    listing: &mut W,
) -> Result<Status, Fault>
    // The listings of the trees that the bytes spell are written, and nothing else.
    ensures listed { IfOk result (λ status. (text : _) × (status ≡ Status.Returned)
        × Lists (map S.remaining files.old) text
        × Appends (W.contents listing.old) (W.contents listing.new) text) }
    ensures faulty { IfErr result (IsUnlisted (map S.remaining files.old)
        (W.contents listing.old) (W.contents listing.new)) }
    ensures counted { CountsFailure result
        (sum_by S.failures files.old + W.failures listing.old)
        (sum_by S.failures files.new + W.failures listing.new) }
{
    let files = read_class_files(alloc, files)?;
    let trees = decode_files(alloc, files.as_slice())?;
    list_files(alloc, trees.as_slice(), listing)?;
    Ok(Status::Returned)
}
