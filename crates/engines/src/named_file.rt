//! Files as sources: those of a folder, and those whose bytes are there.

ghost use Rattle.std.specs.Prelude.{◌≡◌, IfErr, IfOk, IsFalse, IsTrue, Some, map, string_bytes, sum_by, vec_items};
ghost use Rattle.schedule.specs.schedule_text.CommandWord.{IsScheduleWord};
ghost use Rattle.engines.specs.Files.{IsGivenWord, IsScheduleAt, failures_of, has_failed, held_at, known, left_of};
ghost use Rattle.engines.specs.declared.fault.Fault.TheVariants.{Memory};

use crate::fault::{Fault, device_fault};
use model::{DeviceFault, Source};
use place_texts::is_places_word;
use program_files::Folder;
use schedule::schedule_text::is_schedule_word;
use std::alloc::Global;

/// The file at a path of a folder, which is read at once, or one whose bytes are there.
#[derive(Drop)]
pub(crate) struct NamedFile<'a, F: Folder> {
    folder: &'a F,
    path: &'a str,
    reading: Reading<'a>,
    /// The file has failed only where the folder may fail.
    ghost failed: { IsTrue (has_failed reading) → IsTrue (F.may_fail folder.now path.now) },
}

/// How far the reading of a file came.
#[derive(Clone, Copy)]
pub(crate) enum Reading<'a> {
    /// The file was not read.
    Ahead,
    /// The file was not read, and its bytes are there.
    There(&'a [u8]),
    /// The file was read.
    Behind,
    /// The file couldn't be read.
    Failed,
}

impl<F: Folder> Source for NamedFile<'_, F> {
    ghost remaining = { λ file. left_of (F.held file.folder.now file.path.now) file.reading };

    ghost failures = { λ file. failures_of file.reading };

    fn read_all(&mut self, alloc: Global) -> Result<Vec<u8>, DeviceFault> {
        if let Reading::There(bytes) = self.reading {
            let copy = Vec::from_slice(alloc, bytes)?;
            self.reading = Reading::Behind;
            return Ok(copy);
        }
        let Reading::Ahead = self.reading else {
            return Ok(Vec::new(alloc));
        };
        match self.folder.read(alloc, self.path) {
            Ok(bytes) => {
                self.reading = Reading::Behind;
                Ok(bytes)
            }
            Err(error) => match device_fault(&error) {
                DeviceFault::Device => {
                    self.reading = Reading::Failed;
                    Err(DeviceFault::Device)
                }
                DeviceFault::Memory => Err(DeviceFault::Memory),
            },
        }
    }
}

/// The file at a path, as a source.
pub(crate) fn source<'a, F: Folder>(folder: &'a F, path: &'a str) -> NamedFile<'a, F>
    ensures left { ⟦<NamedFile<'a, F> as Source>⟧.remaining result ≡ F.held folder.now path.now }
    ensures none { ⟦<NamedFile<'a, F> as Source>⟧.failures result ≡ 0 }
{
    NamedFile {
        folder,
        path,
        reading: Reading::Ahead,
    }
}

/// Whether a word of a command line is a schedule, which may have places, and no path.
pub(crate) fn is_given_word(alloc: Global, word: &[u8]) -> bool
    ensures given { IsTrue result → IsGivenWord word.now }
    ensures path { IsFalse result → IsScheduleWord word.now → ⊥ }
{
    if is_schedule_word(word) {
        return true;
    }
    is_places_word(alloc, word)
}

/// The schedule that a word is, or whose path it is, as a source.
pub(crate) fn schedule_source<'a, F: Folder>(
    alloc: Global,
    folder: &'a F,
    word: &'a str,
) -> NamedFile<'a, F>
    ensures at { IsScheduleAt (F.held folder.now) word.now (⟦<NamedFile<'a, F> as Source>⟧.remaining result) }
    ensures none { ⟦<NamedFile<'a, F> as Source>⟧.failures result ≡ 0 }
{
    if is_given_word(alloc, word.as_bytes()) {
        return NamedFile {
            folder,
            path: word,
            reading: Reading::There(word.as_bytes()),
        };
    }
    source(folder, word)
}

/// The files at these paths, as sources.
pub(crate) fn path_sources<'a, F: Folder>(
    alloc: Global,
    folder: &'a F,
    paths: &'a [String],
) -> Result<Vec<NamedFile<'a, F>>, Fault>
    ensures left { IfOk result (λ files. map ⟦<NamedFile<'a, F> as Source>⟧.remaining files.items
        ≡ held_at (F.held folder.now) (map string_bytes paths.now)) }
    ensures none { IfOk result (λ files. sum_by ⟦<NamedFile<'a, F> as Source>⟧.failures files.items ≡ 0) }
    ensures memory { IfErr result (λ fault. fault ≡ Memory) }
{
    let mut files = Vec::new(alloc);
    for path in paths {
        files.push(source(folder, path.as_str()))?;
    }
    Ok(files)
}

/// A file of these bytes, as a source.
fn there<'a, F: Folder>(folder: &'a F, bytes: &'a [u8]) -> NamedFile<'a, F>
    ensures left { ⟦<NamedFile<'a, F> as Source>⟧.remaining result ≡ Some bytes.now }
    ensures none { ⟦<NamedFile<'a, F> as Source>⟧.failures result ≡ 0 }
{
    NamedFile {
        folder,
        path: "",
        reading: Reading::There(bytes),
    }
}

/// Files of these bytes, as sources.
pub(crate) fn sources<'a, F: Folder>(
    alloc: Global,
    folder: &'a F,
    files: &'a [Vec<u8>],
) -> Result<Vec<NamedFile<'a, F>>, Fault>
    ensures left { IfOk result (λ sources. map ⟦<NamedFile<'a, F> as Source>⟧.remaining sources.items
        ≡ known (map vec_items files.now)) }
    ensures none { IfOk result (λ sources. sum_by ⟦<NamedFile<'a, F> as Source>⟧.failures sources.items ≡ 0) }
    ensures memory { IfErr result (λ fault. fault ≡ Memory) }
{
    let mut sources = Vec::new(alloc);
    for bytes in files {
        sources.push(there(folder, bytes.as_slice()))?;
    }
    Ok(sources)
}
