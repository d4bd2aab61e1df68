//! One listing behind the other.

ghost use Rattle.std.specs.Prelude.{◌≡◌};
ghost use Rattle.std.specs.List.{flat_map};
ghost use Rattle.model.specs.Devices.{Counts, Writes};
ghost use Rattle.classfile.specs.View.{file_of};
ghost use Rattle.model.specs.Listing.{listing};

use crate::disasm::list;
use classfile::ClassFile;
use model::{DeviceFault, Sink};
use std::alloc::Global;

/// Writes the listing of each class file, one behind the other. An error leaves a front of this text written. `Device`
/// is answered where the writer failed, `Memory` for want of memory.
pub fn list_files<W: Sink>(
    alloc: Global,
    files: &[ClassFile],
    writer: &mut W,
) -> Result<(), DeviceFault>
    ensures written { Writes result (flat_map (λ file. listing (file_of file)) files.now) (W.contents writer.old)
        (W.contents writer.new) }
    ensures counted { Counts result (W.failures writer.old) (W.failures writer.new) }
{
    'files: for file in files {
        list(alloc, file, writer)?;
    }
    Ok(())
}
