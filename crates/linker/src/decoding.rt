//! The class files of a program, from their bytes on.

ghost use Rattle.std.specs.Prelude.{◌≡◌, ◌⊎◌, IfOk, IfErr, map, vec_items};
ghost use Rattle.model.specs.Classes.{Program};
ghost use Rattle.model.specs.Linkable.{AreSpelled};
ghost use Rattle.model.specs.Spells.{Spells};
ghost use Rattle.model.specs.Tree.{FileTree};
ghost use Rattle.classfile.specs.View.{file_of};
ghost use Rattle.hierarchy.specs.Set.{trees_of};
ghost use Rattle.linker.specs.Linking.{IsMalformed, IsUnreadable};
ghost use Rattle.linker.specs.Telling.{TellsUnread, TellsLineOf};

use classfile::{ClassFile, decode};
use constant_pool::reading::Cause;
use link_conditions::refusal::{Refusal, RefusalKind};
use std::alloc::Global;

/// The class file that bytes are, or why the file with this number is refused.
fn decoded(alloc: Global, number: usize, bytes: &[u8]) -> Result<ClassFile, Refusal>
    ensures found { IfOk result (λ file. Spells bytes.now (file_of file)) }
    ensures only { IfOk result (λ file. (c : FileTree) → Spells bytes.now c → file_of file ≡ c) }
    ensures refused { IfErr result (λ r. (r.kind ≡ RefusalKind.OutOfMemory)
        ⊎ ((r.kind ≡ RefusalKind.Malformed) × (r.file ≡ Some number) × IsMalformed bytes.now r.offset r.cause)) }
    ensures line { IfErr result (TellsUnread number) }
{
    match decode(alloc, bytes) {
        Ok(file) => Ok(file),
        Err(malformed) => match malformed.cause {
            Cause::OutOfMemory => Err(Refusal::of_file(RefusalKind::OutOfMemory, number)),
            cause => Err(Refusal::malformed(number, Some(malformed.offset), cause)),
        },
    }
}

/// The class files that the files are, in their order, or why the first of them that is none is refused.
pub(crate) fn decode_all(alloc: Global, files: &[Vec<u8>]) -> Result<Vec<ClassFile>, Refusal>
    ensures found { IfOk result (λ classes. AreSpelled (map vec_items files.now) (trees_of classes.items)) }
    ensures only { IfOk result (λ classes. (trees : Program) → AreSpelled (map vec_items files.now) trees
        → trees_of classes.items ≡ trees) }
    ensures refused { IfErr result (λ r. IsUnreadable (map vec_items files.now) r.kind r.file r.offset r.cause) }
    ensures line { IfErr result (λ r. TellsLineOf (map vec_items files.now) r.kind r) }
{
    let mut classes = Vec::new(alloc);
    for (number, bytes) in files.iter().enumerate() {
        classes.push(decoded(alloc, number, bytes)?)?;
    }
    Ok(classes)
}
