//! The listings of class files with names and line numbers, over any readers and writer.

ghost use Rattle.std.specs.Prelude.{◌≡◌, ◌+◌, IfOk, IfErr, map, sum_by};
ghost use Rattle.std.specs.Io.KnownBytes.{Appends};
ghost use Rattle.engines.specs.Engines.{CountsFailure};
ghost use Rattle.engines.specs.Listings.{AreClassFiles, IsUnnamed};

use crate::class_files::read_class_files;
use crate::fault::Fault;
use crate::status::Status;
use listings::class_listings::decode_files;
use listings::named_listing::named_listings;
use model::{Sink, Source};
use std::alloc::Global;

/// Writes the listings of the class files with names and line numbers, one behind the other, and answers the status
/// of what is done. Of the text nothing is promised.
///
/// Nothing is written where a file can't be read or is refused, or where there is no memory for the text.
pub fn names_engine<S: Source, W: Sink>(
    alloc: Global,
    files: &mut [S],
    listing: &mut W,
) -> Result<Status, Fault>
    // The bytes are those of class files, and some text is written.
    ensures listed { IfOk result (λ status. (text : _) × (status ≡ Status.Returned)
        × AreClassFiles (map S.remaining files.old)
        × Appends (W.contents listing.old) (W.contents listing.new) text) }
    ensures faulty { IfErr result (IsUnnamed (map S.remaining files.old)
        (W.contents listing.old) (W.contents listing.new)) }
    ensures counted { CountsFailure result
        (sum_by S.failures files.old + W.failures listing.old)
        (sum_by S.failures files.new + W.failures listing.new) }
{
    let files = read_class_files(alloc, files)?;
    let trees = decode_files(alloc, files.as_slice())?;
    let text = named_listings(alloc, trees.as_slice())?;
    listing.write_all(text.as_slice())?;
    Ok(Status::Returned)
}
