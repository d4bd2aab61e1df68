//! What the commands `verify` and `disasm` do.

ghost use Rattle.std.specs.Prelude.{◌≡◌, ◌⊎◌, ◌+◌, IfErr, IfOk, map, sum_by, vec_items};
ghost use Rattle.std.specs.Io.KnownBytes.{Appends};
ghost use Rattle.engines.specs.Commands.{IsUnacceptedAs, IsUnlistedAs, ListsAs, VerifiesAs};
ghost use Rattle.engines.specs.Devices.{IsUnable};
ghost use Rattle.engines.specs.Files.{known};
ghost use Rattle.engines.specs.Engines.{CountsFailure};
ghost use Rattle.engines.specs.Failures.{FolderMayFail, TellsFailures};
ghost use Rattle.library_files.specs.Adding.{library_file};

use crate::fault::Fault;
use crate::library::verify_library_engine;
use crate::listing::disasm_engine;
use crate::named_file::sources;
use crate::names::names_engine;
use crate::status::Status;
use crate::verification::verify_engine;
use command_line::{Disasm, Verify};
use library_files::LibraryClass;
use model::{Sink, Source};
use program_files::Folder;
use std::alloc::Global;

/// `verify`.
pub(crate) fn verify<F: Folder, W: Sink>(
    alloc: Global,
    folder: &F,
    files: &[Vec<u8>],
    given: usize,
    own: &[LibraryClass<'_>],
    options: &Verify,
    output: &mut W,
) -> Result<Status, Fault>
    ensures verified { IfOk result (λ status. (text : _) × (status ≡ Status.Returned)
        × VerifiesAs options.now.library given (map library_file own.now) (known (map vec_items files.now)) text
        × Appends (W.contents output.old) (W.contents output.new) text) }
    ensures faulty { IfErr result (λ fault. (IsUnable fault × (W.contents output.new ≡ W.contents output.old))
        ⊎ IsUnacceptedAs options.now.library given (map library_file own.now) (known (map vec_items files.now))
        (W.contents output.old) (W.contents output.new) fault) }
    ensures told { TellsFailures (FolderMayFail F.may_fail) result (W.failures output.old) (W.failures output.new) }
{
    let mut sources = sources(alloc, folder, files)?;
    verified(
        alloc,
        options.library,
        sources.as_mut_slice(),
        given,
        own,
        output,
    )
}

/// Verifies class files, as a library or as a program.
fn verified<S: Source, W: Sink>(
    alloc: Global,
    library: bool,
    files: &mut [S],
    given: usize,
    own: &[LibraryClass<'_>],
    output: &mut W,
) -> Result<Status, Fault>
    ensures verified { IfOk result (λ status. (text : _) × (status ≡ Status.Returned)
        × VerifiesAs library given (map library_file own.now) (map S.remaining files.old) text
        × Appends (W.contents output.old) (W.contents output.new) text) }
    ensures faulty { IfErr result (IsUnacceptedAs library given (map library_file own.now) (map S.remaining files.old)
        (W.contents output.old) (W.contents output.new)) }
    ensures counted { CountsFailure result
        (sum_by S.failures files.old + W.failures output.old)
        (sum_by S.failures files.new + W.failures output.new) }
{
    if library {
        verify_library_engine(alloc, files, given, own, output)
    } else {
        verify_engine(alloc, files, given, own, output)
    }
}

/// `disasm`.
pub(crate) fn disasm<F: Folder, W: Sink>(
    alloc: Global,
    folder: &F,
    files: &[Vec<u8>],
    options: &Disasm,
    output: &mut W,
) -> Result<Status, Fault>
    ensures listed { IfOk result (λ status. (text : _) × (status ≡ Status.Returned)
        × ListsAs options.now.names (known (map vec_items files.now)) text
        × Appends (W.contents output.old) (W.contents output.new) text) }
    ensures faulty { IfErr result (λ fault. (IsUnable fault × (W.contents output.new ≡ W.contents output.old))
        ⊎ IsUnlistedAs options.now.names (known (map vec_items files.now))
        (W.contents output.old) (W.contents output.new) fault) }
    ensures told { TellsFailures (FolderMayFail F.may_fail) result (W.failures output.old) (W.failures output.new) }
{
    let mut sources = sources(alloc, folder, files)?;
    listed(alloc, options.names, sources.as_mut_slice(), output)
}

/// Lists class files, with names or without.
fn listed<S: Source, W: Sink>(
    alloc: Global,
    names: bool,
    files: &mut [S],
    output: &mut W,
) -> Result<Status, Fault>
    ensures listed { IfOk result (λ status. (text : _) × (status ≡ Status.Returned)
        × ListsAs names (map S.remaining files.old) text
        × Appends (W.contents output.old) (W.contents output.new) text) }
    ensures faulty { IfErr result (IsUnlistedAs names (map S.remaining files.old)
        (W.contents output.old) (W.contents output.new)) }
    ensures counted { CountsFailure result
        (sum_by S.failures files.old + W.failures output.old)
        (sum_by S.failures files.new + W.failures output.new) }
{
    if names {
        names_engine(alloc, files, output)
    } else {
        disasm_engine(alloc, files, output)
    }
}
