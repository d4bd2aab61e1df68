//! The verification of class files, over any readers and writer.

ghost use Rattle.std.specs.Prelude.{◌≡◌, ◌+◌, ◌++◌, IfOk, IfErr, OnOk, length, map, string_bytes, sum_by, vec_items};
ghost use Rattle.std.specs.Io.KnownBytes.{Appends};
ghost use Rattle.model.specs.Accepted.{IsAccepted};
ghost use Rattle.model.specs.Classes.{Program};
ghost use Rattle.engines.specs.Engines.{CountsFailure};
ghost use Rattle.engines.specs.Refusals.{IsRefused};
ghost use Rattle.engines.specs.Verifications.{IsUnaccepted, Verifies, given_count, of_library};
ghost use Rattle.engines.specs.Verifications.{own_line, own_names, verified_line, verified_text};
ghost use Rattle.library_files.specs.Adding.{library_file};

use crate::class_files::read_class_files;
use crate::fault::Fault;
use crate::status::Status;
use library_files::LibraryClass;
use link_conditions::refusal::Refusal;
use linker::link;
use model::{Sink, Source};
use std::alloc::{AllocError, Global};
use verifier::{Verified, verify};

/// Links and verifies the class files, writes a line with their number, and answers the status of what is done. The
/// first so many of them are given, and a library adds the others: the line tells how many. A second line tells the
/// classes of the library in whose place the files have their own, if there are any.
///
/// Nothing is written where a file can't be read or the files are refused.
pub fn verify_engine<S: Source, W: Sink>(
    alloc: Global,
    files: &mut [S],
    given: usize,
    own: &[LibraryClass<'_>],
    line: &mut W,
) -> Result<Status, Fault>
    // The files that were read are accepted, and what is told of them is written, and nothing else.
    ensures verified { IfOk result (λ status. (text : _) × (status ≡ Status.Returned)
        × Verifies given (map library_file own.now) (map S.remaining files.old) text
        × Appends (W.contents line.old) (W.contents line.new) text) }
    ensures faulty { IfErr result (IsUnaccepted given (map library_file own.now) (map S.remaining files.old)
        (W.contents line.old) (W.contents line.new)) }
    ensures counted { CountsFailure result
        (sum_by S.failures files.old + W.failures line.old)
        (sum_by S.failures files.new + W.failures line.new) }
{
    let files = read_class_files(alloc, files)?;
    let count = accepted_count(alloc, files.as_slice())?;
    let text = text_of(alloc, count, given, own)?;
    line.write_all(text.as_slice())?;
    Ok(Status::Returned)
}

/// The class files, where linking and verification accept them.
pub(crate) fn accepted(alloc: Global, files: &[Vec<u8>]) -> Result<Verified, Refusal>
    ensures accepted { IfOk result (IsAccepted (map vec_items files.now)) }
    ensures refused { IfErr result (IsRefused (map vec_items files.now)) }
{
    let linked = link(alloc, files)?;
    let verified = verify(alloc, linked)?;
    // what verification found out
    let _ = verified.linked();
    Ok(verified)
}

/// How many class files these are, where they are accepted.
fn accepted_count(alloc: Global, files: &[Vec<u8>]) -> Result<usize, Refusal>
    ensures accepted { IfOk result (λ count. (trees : Program)
        × IsAccepted (map vec_items files.now) trees × (count ≡ length files.now)) }
    ensures refused { IfErr result (IsRefused (map vec_items files.now)) }
{
    let verified = accepted(alloc, files)?;
    Ok(verified.linked().file_count())
}

/// What is told of so many class files that are accepted, of which the first so many are given.
pub(crate) fn text_of(
    alloc: Global,
    count: usize,
    given: usize,
    own: &[LibraryClass<'_>],
) -> Result<Vec<u8>, AllocError>
    ensures { IfOk result (λ text. text.items ≡ verified_text given (map library_file own.now) count) }
{
    let given = given_count(count, given);
    let mut text = line_of(alloc, given, count - given)?.into_bytes();
    push_own(&mut text, own)?;
    Ok(text)
}

/// How many of so many class files are given: the first so many, unless they are fewer.
fn given_count(count: usize, given: usize) -> usize
    ensures { result ≡ given_count given count }
{
    if count < given { count } else { given }
}

/// The line of so many classes, and of so many that a library adds.
fn line_of(alloc: Global, given: usize, added: usize) -> Result<String, AllocError>
    ensures { IfOk result (λ text. string_bytes text ≡ verified_line given added) }
{
    let mut line = format!(in alloc; "verified {given} classes")?;
    push_added(alloc, &mut line, added)?;
    line.push_str("\n")?;
    Ok(line)
}

/// How many classes a library adds, if it adds any.
fn push_added(alloc: Global, line: &mut String, added: usize) -> Result<(), AllocError>
    ensures { OnOk result (string_bytes line.new ≡ string_bytes line.old ++ of_library added) }
{
    if added == 0 {
        return Ok(());
    }
    line.push_str(format!(in alloc; ", {added} of the library")?.as_str())
}

/// The line of the classes of a library in whose place files have their own, if there are any.
fn push_own(text: &mut Vec<u8>, own: &[LibraryClass<'_>]) -> Result<(), AllocError>
    ensures { OnOk result (text.new.items ≡ text.old.items ++ own_line (map library_file own.now)) }
{
    if own.is_empty() {
        return Ok(());
    }
    text.extend_from_slice(b"instead of the library's:")?;
    push_names(text, own)?;
    text.extend_from_slice(b"\n")?;
    Ok(())
}

/// The names of classes, each behind a space.
fn push_names(text: &mut Vec<u8>, own: &[LibraryClass<'_>]) -> Result<(), AllocError>
    ensures { OnOk result (text.new.items ≡ text.old.items ++ own_names (map library_file own.now)) }
{
    for class in own {
        text.push(b' ')?;
        text.extend_from_slice(class.name)?;
    }
    Ok(())
}
