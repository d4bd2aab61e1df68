//! How many files a program may have, and how many texts of string constants (own).

ghost use Rattle.std.specs.Prelude.{◌≡◌, ◌≤◌, false, length, map, IfOk};
ghost use Rattle.std.specs.List.{flat_map};
ghost use Rattle.classfile.specs.View.{file_of};
ghost use Rattle.model.specs.StringConstants.{texts_in, file_texts};
ghost use Rattle.model.specs.Linkable.{stands, TooLarge};

use crate::limits_of_linking::text_set::{TextSet, add_texts};
use classfile::ClassFile;
use std::alloc::{AllocError, Global};

/// How many files a program may have.
const MAX_FILES: usize = 65_000;

/// How many texts of string constants they may have.
const MAX_TEXTS: usize = 200_000_000;

/// Whether the constant pools have so many entries that there may be too many texts among them.
fn has_many_entries(files: &[ClassFile]) -> bool
    ensures { result ≡ false → length (flat_map texts_in (map file_of files.now)) ≤ MAX_TEXTS }
{
    let mut entries = 0usize;
    for file in files {
        entries = entries.saturating_add(file.pool.constants().len());
    }
    entries > MAX_TEXTS
}

/// How many texts the string constants of files have, each counted once.
fn text_count(alloc: Global, files: &[ClassFile]) -> Result<usize, AllocError>
    ensures { IfOk result (λ n. n ≡ length (file_texts (map file_of files.now))) }
{
    let mut texts = TextSet::new(alloc);
    for file in files {
        add_texts(alloc, &mut texts, file)?;
    }
    Ok(texts.count())
}

/// Whether there are more than 65,000 files, or more than 200,000,000 texts of string constants. Takes memory only
/// where the files have more entries of constant pools than texts are allowed.
pub fn is_too_large(alloc: Global, files: &[ClassFile]) -> Result<bool, AllocError>
    ensures { IfOk result (λ b. b ≡ stands (map file_of files.now) TooLarge) }
{
    if files.len() > MAX_FILES {
        return Ok(true);
    }
    if !has_many_entries(files) {
        return Ok(false);
    }
    Ok(text_count(alloc, files)? > MAX_TEXTS)
}
