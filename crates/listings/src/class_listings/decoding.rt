//! Class files from their bytes.

ghost use Rattle.std.specs.Prelude.{◌≡◌, ◌⊎◌, ◌<◌, IfOk, IfErr, length, map, vec_items};
ghost use Rattle.model.specs.Linkable.{AreSpelled};
ghost use Rattle.model.specs.Spells.{Spells};
ghost use Rattle.constant_pool.specs.declared.reading.fault.Cause.TheVariants as causes;
ghost use Rattle.classfile.specs.View.{file_of};
ghost use Rattle.listings.specs.class_listings.Listings.{IsFirstMalformed, IsMalformed, malformed, no_memory};

use classfile::{Cause, ClassFile, Malformed, decode};
use link_conditions::refusal::{Refusal, RefusalKind};
use std::alloc::Global;

/// The class files that the bytes are, in their order, or why the first of them that is none is refused. Memory may be
/// wanted for each of them.
pub fn decode_files(alloc: Global, files: &[Vec<u8>]) -> Result<Vec<ClassFile>, Refusal>
    ensures spelled { IfOk result (λ trees. AreSpelled (map vec_items files.now) (map file_of trees.items)) }
    ensures refused { IfErr result (λ refusal.
        ((number : _) × (number < length files.now) × (refusal ≡ no_memory number))
        ⊎ IsFirstMalformed (map vec_items files.now) refusal) }
{
    let mut trees = Vec::new(alloc);
    for (number, bytes) in files.iter().enumerate() {
        let tree = decoded(alloc, number, bytes)?;
        if trees.push(tree).is_err() {
            return Err(out_of_memory(number));
        }
    }
    Ok(trees)
}

/// The class file that bytes are, or why the file with this number is refused.
fn decoded(alloc: Global, number: usize, bytes: &[u8]) -> Result<ClassFile, Refusal>
    ensures spelled { IfOk result (λ tree. Spells bytes.now (file_of tree)) }
    ensures refused { IfErr result (λ refusal. (refusal ≡ no_memory number) ⊎ IsMalformed bytes.now number refusal) }
{
    match decode(alloc, bytes) {
        Ok(tree) => Ok(tree),
        Err(fault) => Err(refusal(number, fault)),
    }
}

/// How the class file with this number is refused that is no class file.
fn refusal(number: usize, fault: Malformed) -> Refusal
    ensures memory { fault.cause ≡ causes.OutOfMemory → result ≡ no_memory number }
    ensures cause { (fault.cause ≡ causes.OutOfMemory → ⊥) → result ≡ malformed number fault.cause fault.offset }
{
    match fault.cause {
        Cause::OutOfMemory => out_of_memory(number),
        cause => Refusal {
            kind: RefusalKind::Malformed,
            file: Some(number),
            method: None,
            offset: Some(fault.offset),
            cause: Some(cause),
        },
    }
}

/// The refusal that there is no memory for the class file with this number.
fn out_of_memory(number: usize) -> Refusal
    ensures { result ≡ no_memory number }
{
    Refusal {
        kind: RefusalKind::OutOfMemory,
        file: Some(number),
        method: None,
        offset: None,
        cause: None,
    }
}
