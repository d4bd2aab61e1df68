//! The verification of libraries, over any readers and writer: class files behind a class that has a main.

ghost use Rattle.std.specs.Prelude.{◌≡◌, ◌∷◌, ◌+◌, IfOk, IfErr, length, map, sum_by, vec_items};
ghost use Rattle.std.specs.Io.KnownBytes.{Appends};
ghost use Rattle.model.specs.Classes.{Program};
ghost use Rattle.engines.specs.Engines.{CountsFailure};
ghost use Rattle.engines.specs.Libraries.{IsLibrary, IsRefusedLibrary, IsUnacceptedLibrary, VerifiesLibrary};
ghost use Rattle.engines.specs.Libraries.{file_without_main};
ghost use Rattle.engines.specs.LibraryMain.{library_main};
ghost use Rattle.library_files.specs.Adding.{library_file};

use crate::class_files::read_class_files;
use crate::fault::Fault;
use crate::status::Status;
use crate::verification::{accepted, text_of};
use library_files::LibraryClass;
use link_conditions::refusal::{Refusal, RefusalKind};
use model::{Sink, Source};
use std::alloc::{AllocError, Global};

/// The bytes of the class that stands before the files: a class file with a static main, which returns.
const LIBRARY_MAIN: &[u8] = b"\xca\xfe\xba\xbe\x00\x00\x001\x00\x08\
    \x01\x00\x11main of a library\x07\x00\x01\x01\x00\x10java/lang/Object\x07\x00\x03\
    \x01\x00\x04main\x01\x00\x16([Ljava/lang/String;)V\x01\x00\x04Code\
    \x00\x20\x00\x02\x00\x04\x00\x00\x00\x00\x00\x01\x00\x09\x00\x05\x00\x06\x00\x01\
    \x00\x07\x00\x00\x00\x0d\x00\x00\x00\x01\x00\x00\x00\x01\xb1\x00\x00\x00\x00\x00\x00";

/// Links and verifies the class files of a library, of which no class has to have a `main`: they are accepted where
/// they are behind a class that has one. Writes what is told of them, as `verify_engine`, and answers the status of
/// what is done.
///
/// Nothing is written where a file can't be read or the files are refused.
pub fn verify_library_engine<S: Source, W: Sink>(
    alloc: Global,
    files: &mut [S],
    given: usize,
    own: &[LibraryClass<'_>],
    line: &mut W,
) -> Result<Status, Fault>
    // The files that were read are accepted so, and what is told of them is written, and nothing else.
    ensures verified { IfOk result (λ status. (text : _) × (status ≡ Status.Returned)
        × VerifiesLibrary given (map library_file own.now) (map S.remaining files.old) text
        × Appends (W.contents line.old) (W.contents line.new) text) }
    ensures faulty { IfErr result (IsUnacceptedLibrary given (map library_file own.now) (map S.remaining files.old)
        (W.contents line.old) (W.contents line.new)) }
    ensures counted { CountsFailure result
        (sum_by S.failures files.old + W.failures line.old)
        (sum_by S.failures files.new + W.failures line.new) }
{
    let files = read_class_files(alloc, files)?;
    let count = library_count(alloc, files)?;
    let text = text_of(alloc, count, given, own)?;
    line.write_all(text.as_slice())?;
    Ok(Status::Returned)
}

/// How many class files these are, where they are accepted as a library.
fn library_count(alloc: Global, files: Vec<Vec<u8>>) -> Result<usize, Refusal>
    ensures accepted { IfOk result (λ count. (trees : Program)
        × IsLibrary (map vec_items files.items) trees × (count ≡ length files.items)) }
    ensures refused { IfErr result (IsRefusedLibrary (map vec_items files.items)) }
{
    let count = files.len();
    let Ok(all) = behind_main(alloc, files) else {
        return Err(Refusal::of(RefusalKind::OutOfMemory));
    };
    match accepted(alloc, all.as_slice()) {
        Ok(_) => Ok(count),
        Err(refusal) => Err(without_main(refusal)),
    }
}

/// The refusal, with the number of its file counted without the class in front of the files.
fn without_main(refusal: Refusal) -> Refusal
    ensures { result ≡ record refusal { file = file_without_main refusal.file } }
{
    let file = match refusal.file {
        Some(number) if number > 0 => Some(number - 1),
        _ => None,
    };
    Refusal { file, ..refusal }
}

/// The class files behind one that has a main.
pub(crate) fn behind_main(alloc: Global, files: Vec<Vec<u8>>) -> Result<Vec<Vec<u8>>, AllocError>
    ensures { IfOk result (λ all. map vec_items all.items ≡ library_main ∷ map vec_items files.items) }
{
    let mut all = files;
    all.insert(0, main_class(alloc)?)?;
    Ok(all)
}

/// The bytes of that class.
fn main_class(alloc: Global) -> Result<Vec<u8>, AllocError>
    ensures { IfOk result (λ bytes. bytes.items ≡ library_main) }
{
    Vec::from_slice(alloc, LIBRARY_MAIN)
}
